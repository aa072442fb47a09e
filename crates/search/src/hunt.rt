// Trying a level and walking back a page take turns: two functions that call each other.
ghost use Rattle.std.specs.Prelude.{◌≡◌, ℕ, ◌<◌, ◌+◌, IfSome};
ghost use Rattle.seq.specs.Seq.{below, span, level};
ghost use Rattle.page.specs.Page.{gives};
ghost use Rattle.chain.specs.Steps.{read_at};
ghost use Rattle.search.specs.Hunt.{passed_over, found_on, seen_on, really_seek, hunt};
ghost use Rattle.search.specs.Told.{offer_on, told, Says, named, aimed, walked};

use crate::search::Stand;
use page::DataHeader;
use seq::ids::NONE;
use state::values::NO_BOUNDARY;

// A position: its page's seq and links, the record's start, and Rust's curr_high.
#[derive(Clone, Copy, Debug, PartialEq, Eq)]
pub struct Offer {
    pub low: u32,
    pub links: [u16; 9],
    pub mid: u32,
    pub high: u32,
}

// Where the hunt stands: an offer with left as it is then, the end, or Damaged. Each has a name, as a step of a chain has.
#[derive(Clone, Copy, Debug, PartialEq, Eq)]
pub enum Hunted {
    Offered { left: u32, offer: Offer },
    Ended,
    Broken,
}

// What a page on the way says.
#[derive(Clone, Copy, Debug, PartialEq, Eq)]
pub enum Seen {
    Hit,
    TooLeft,
    Back,
    Wrong,
}

// The page of a level that is tried, and the level's number.
#[derive(Clone, Copy, Debug, PartialEq, Eq)]
pub struct Aim {
    pub id: u16,
    pub target: u32,
}

// ---- answers

// The offer that a page makes.
#[tactic(auto, using(crate::proofs::Levels::greater_max))]
fn offer_on(target: u32, h: &DataHeader) -> Offer
    requires { h.now.seq + h.now.record_boundary < 4294967296 }
    ensures { result ≡ offer_on target h.now }
{
    let mid = h.seq + (h.record_boundary as u32);
    Offer {
        low: h.seq,
        links: h.skiplist,
        mid,
        high: target.max(mid),
    }
}

// ---- a page on the way

// A page that starts at or below left is too far left.
fn passed_over(left: u32, h: &DataHeader) -> bool
    ensures { result ≡ passed_over left h.now }
{
    h.seq <= left
}

// A page that names a boundary.
fn found_on(left: u32, limit: u32, h: &DataHeader) -> Seen
    ensures { (target : ℕ) → Says (λ back. found_on left target limit h.now) target limit h.now result }
{
    let boundary = h.record_boundary;
    if 224 <= boundary {
        return Seen::Wrong;
    }
    let start = (h.seq as u64) + (boundary as u64);
    if limit as u64 <= start {
        return Seen::Wrong;
    }
    if start <= left as u64 {
        return Seen::TooLeft;
    }
    if h.length < boundary {
        return Seen::Wrong;
    }
    Seen::Hit
}

// A page whose header reads.
fn seen_on(left: u32, target: u32, limit: u32, h: &DataHeader) -> Seen
    ensures { Says (seen_on left target limit h.now) target limit h.now result }
{
    if limit <= h.seq {
        return Seen::Wrong;
    }
    if target < h.seq {
        return Seen::Wrong;
    }
    if passed_over(left, h) {
        return Seen::TooLeft;
    }
    if h.record_boundary != NO_BOUNDARY {
        return found_on(left, limit, h);
    }
    if h.skiplist[0] == NONE {
        return Seen::Wrong;
    }
    Seen::Back
}

// The header of the page that an id names.
fn header_at(image: &[u8], count: usize, id: u16) -> Option<DataHeader>
    ensures { result ≡ gives (named count (read_at image.now) id) }
{
    page::header_at(image, chain::page_at(id, count)?)
}

// ---- a level

// A level's number, which a jump by its link leads to.
fn target_of(right: u32, level: usize) -> u32
    requires { (0 < right) × (level < 9) }
    ensures number { result ≡ below (span level) right }
    ensures bound { result < 4294967295 }
{
    seq::numbers::skiplist_seq(right, level).unwrap_or(0)
}

// Where a level is tried.
fn aim_at(left: u32, s: &Stand, level: usize) -> Option<Aim>
    requires { level < 9 }
    ensures aim { result ≡ aimed left s.now.right s.now.links level }
    ensures bound { IfSome result (λ aim. aim.target < 4294967295) }
{
    let id = s.links[level];
    if s.right <= left {
        return None;
    }
    if id == NONE {
        return None;
    }
    let target = target_of(s.right, level);
    if target < left {
        return None;
    }
    Some(Aim { id, target })
}

// The level that a hunt begins at.
fn first_level(left: u32, right: u32) -> usize
    ensures { result ≡ level (left + 1) right }
{
    if right <= left {
        return 0;
    }
    seq::numbers::link_index(left + 1, right)
}

// Tries a level, and the levels below it.
#[cycle(really_seek_seek_to_page)]
fn really_seek(image: &[u8], count: usize, s: &Stand, level: usize, left: u32) -> Hunted
    requires { level < 9 }
    ensures { result ≡ told (really_seek count (read_at image.now) s.now.right s.now.links level left) }
{
    let right = s.right;
    prove!(right <= u32::MAX);
    if let Some(aim) = aim_at(left, s, level) {
        return seek_to_page(image, count, s, level, left, aim.target, right, aim.id);
    }
    if level == 0 {
        return Hunted::Ended;
    }
    really_seek(image, count, s, level - 1, left)
}

// Walks back from a page whose seq is to lie below the limit; too far left, it is the next level's turn.
#[cycle(really_seek_seek_to_page)]
fn seek_to_page(
    image: &[u8],
    count: usize,
    s: &Stand,
    level: usize,
    left: u32,
    target: u32,
    limit: u32,
    id: u16,
) -> Hunted
    requires { (level < 9) × (target < 4294967295) }
    ensures { result ≡ told (walked count (read_at image.now) s.now.right s.now.links level left target limit id) }
{
    let Some(header) = header_at(image, count, id) else {
        return Hunted::Broken;
    };
    match seen_on(left, target, limit, &header) {
        Seen::Wrong => Hunted::Broken,
        Seen::Hit => Hunted::Offered {
            left,
            offer: offer_on(target, &header),
        },
        Seen::TooLeft => {
            if level == 0 {
                return Hunted::Ended;
            }
            really_seek(image, count, s, level - 1, target + 1)
        }
        Seen::Back => {
            let prev = header.skiplist[0];
            seek_to_page(image, count, s, level, left, target, header.seq, prev)
        }
    }
}

// The first level, and the levels below it.
pub fn hunt(image: &[u8], count: usize, s: &Stand) -> Hunted
    ensures { result ≡ told (hunt count (read_at image.now) s.now.left s.now.right s.now.links) }
{
    let level = first_level(s.left, s.right);
    really_seek(image, count, s, level, s.left)
}
