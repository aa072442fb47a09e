// A file's pages: the links of a new page, one step back, and the seek over the links.
#![tactic(auto)]

ghost use Rattle.std.specs.Prelude.{◌≡◌};
ghost use Rattle.seq.specs.Seq.{level};
ghost use Rattle.chain.specs.Links.{start, link, no_links, linked, links_after};
ghost use Rattle.chain.specs.Steps.{read_at, page_in, lower, step, back_rule, seek};
ghost use Rattle.chain.specs.Seek.{told, located};
ghost use Rattle.chain.specs.Back.{place_of, wide, told_back, walk_back, reached_by};
ghost use Rattle.chain.specs.Files.{last_of};

use page::{BackRead, DataHeader, Headed};
use seq::ids::{OptionPageID, PageID};
use state::types::FileRecord;

// A page of a file with its header.
#[derive(Clone, Copy, Debug, PartialEq, Eq)]
pub struct PagePointer {
    pub page_id: u16,
    pub header: DataHeader,
}

// A page of a file with what a step back asks of its header: its first number and its link 0.
#[derive(Clone, Copy, Debug, PartialEq, Eq)]
pub struct Place {
    pub page_id: u16,
    pub seq: u32,
    pub link: u16,
}

// What a step from a page comes to: it is the last of the walk, another page is reached, or one should be and is not. Each has a name: of a
// Result<Option<P>, _> the last page of a walk would be an Ok(None).
#[derive(Clone, Copy, Debug, PartialEq, Eq)]
pub enum Step<P> {
    Stays,
    Reaches(P),
    Breaks,
}

// Where a seek ends, and how many headers it read.
#[derive(Clone, Copy, Debug, PartialEq, Eq)]
pub struct Found {
    pub count: u32,
    pub page: PagePointer,
}

// A file's last page, as its record has it.
pub fn last_of(f: &FileRecord) -> PagePointer
    ensures { result ≡ last_of f.now }
{
    PagePointer {
        page_id: f.last_page,
        header: f.header,
    }
}

// The links of a page with none before it.
pub fn no_links() -> [u16; 9]
    ensures { result ≡ no_links }
{
    [seq::ids::NONE; 9]
}

// The links of a page being written: id at every index from 0 up to top, and those given above.
fn new_links(links: [u16; 9], top: usize, id: u16) -> [u16; 9]
    ensures { result ≡ linked links top id }
{
    let mut out = links;
    let named = top.min(8) + 1;
    out[..named].fill(id);
    out
}

// Those of a page that starts at seq behind page p.
pub fn links_after(p: &PagePointer, seq: u32) -> [u16; 9]
    ensures { result ≡ links_after p.now seq }
{
    let top = seq::numbers::link_index(p.header.seq, seq);
    new_links(p.header.skiplist, top, p.page_id)
}

// ---- a lower page

// image and count are two parameters here and above, and no struct: each call would have to make it of its image and its state's
// page_count, and a clause would say `pages.now.image` for `image.now`.

// The page of an id, if it is one below count.
pub fn page_at(id: u16, count: usize) -> Option<usize>
    ensures { result ≡ page_in count id }
{
    let at = PageID::from_raw(id)?.index();
    if at < count { Some(at) } else { None }
}

// What is read of page id, if that is a page below count and its seq is below start: what both kinds of step ask.
fn lower<H: Headed>(image: &[u8], count: usize, start: u32, id: u16) -> Option<H>
    ensures { result ≡ H.reads (lower count (read_at image.now) start id) }
{
    let at = page_at(id, count)?;
    let header = H::read_at(image, at)?;
    if header.seq() < start {
        return Some(header);
    }
    None
}

// ---- back

// What a step back asks of a page whose header is at hand.
pub fn place_of(p: &PagePointer) -> Place
    ensures { result ≡ place_of p.now }
{
    Place {
        page_id: p.page_id,
        seq: p.header.seq,
        link: p.header.skiplist[0],
    }
}

// One step back, to the page before p, for a p that starts above limit: the code of the rule, which all walks share.
pub fn back(image: &[u8], count: usize, p: Place, limit: u32) -> Step<Place>
    ensures { result ≡ told_back (step (back_rule count limit) (read_at image.now) (wide p)) }
{
    if (p.seq <= limit) | OptionPageID::from_raw(p.link).is_none() {
        return Step::Stays;
    }
    match lower::<BackRead>(image, count, p.seq, p.link) {
        Some(next) => Step::Reaches(Place {
            page_id: p.link,
            seq: next.seq,
            link: next.link,
        }),
        None => Step::Breaks,
    }
}

// The same with the header of the page reached, which reads: the step read it.
pub fn prev(image: &[u8], count: usize, p: &PagePointer, limit: u32) -> Step<PagePointer>
    ensures { result ≡ told (step (back_rule count limit) (read_at image.now) p.now) }
{
    match back(image, count, place_of(p), limit) {
        Step::Stays => Step::Stays,
        Step::Breaks => Step::Breaks,
        Step::Reaches(to) => Step::Reaches(PagePointer {
            page_id: to.page_id,
            header: page::header_at(image, to.page_id as usize).unwrap(),
        }),
    }
}

// Where the walk back to limit ends, if at a page.
pub fn walk_back(image: &[u8], count: usize, p: Place, limit: u32) -> Option<Place>
    ensures { result ≡ reached_by (walk_back count (read_at image.now) limit p).ends }
{
    let mut here = p;
    loop {
        match back(image, count, here, limit) {
            Step::Stays => return Some(here),
            Step::Breaks => return None,
            Step::Reaches(next) => here = next,
        }
    }
}

// ---- the seek

// The link that leads from p toward seq.
fn link_toward(p: &PagePointer, seq: u32) -> u16
    ensures { result ≡ link p.now (level seq (start p.now)) }
{
    let i = seq::numbers::link_index(seq, p.header.seq);
    p.header.skiplist[i]
}

// The page that holds seq, by the links, from a page whose header is at hand.
pub fn prev_seq(image: &[u8], count: usize, p: PagePointer, seq: u32) -> Option<Found>
    ensures { result ≡ located (seek count (read_at image.now) seq p) }
{
    let mut here = p;
    let mut read: u32 = 0;
    while seq < here.header.seq {
        let page_id = link_toward(&here, seq);
        let header = lower(image, count, here.header.seq, page_id)?;
        here = PagePointer { page_id, header };
        read += 1;
    }
    Some(Found {
        count: read,
        page: here,
    })
}
