// A file's pages, from its last page back, and the pages that a truncation holds.
ghost use Rattle.std.specs.Prelude.{◌≡◌, [], ◌∷◌, ◌≤◌, Some};
ghost use Rattle.chain.specs.Steps.{read_at};
ghost use Rattle.chain.specs.Back.{walk_back};
ghost use Rattle.transact.specs.Truncate.{others, unreached, held_all};
ghost use Rattle.transact.specs.Walks.{Ends, edge_at};

use chain::{Place, Step};
use state::types::FileRecord;

// Where the walk to the new first_seq ends, if a call may follow the record and its walk ends at a page.
// Each page is read once: the walk to the old first_seq goes on from there.
#[tactic(auto, using(crate::proofs::Steps::edge_unshaped, crate::proofs::Steps::edge_none, crate::proofs::Steps::edge_short, crate::proofs::Steps::edge_found))]
pub fn edge_of(image: &[u8], count: usize, f: &FileRecord, first: u32) -> Option<Place>
    requires { f.now.first_seq ≤ first }
    ensures { result ≡ edge_at image.now count f.now first }
{
    if !state::values::in_shape(f, count) {
        return None;
    }
    let last = chain::place_of(&chain::last_of(f));
    let edge = chain::walk_back(image, count, last, first)?;
    chain::walk_back(image, count, edge, f.first_seq)?;
    Some(edge)
}

// A page other than the last one is held.
fn hold_other(map: &mut [u8], id: u16, last: u16)
    ensures { map.new ≡ held_all map.old (others last (id ∷ [])) }
{
    if id != last {
        map::hold(map, usize::from(id));
    }
}

// The pages of the walk back after p are held.
#[tactic(auto, using(crate::proofs::Steps::held_ended))]
fn hold_back(image: &[u8], map: &mut [u8], count: usize, p: Place, limit: u32, last: u16)
    requires { Ends image.now count p limit }
    ensures { map.new ≡ held_all map.old (others last (walk_back count (read_at image.now) limit p).path) }
{
    let mut here = p;
    while let Step::Reaches(next) = chain::back(image, count, here, limit) {
        here = next;
        hold_other(map, here.page_id, last);
    }
}

// The pages that the walk to the new first_seq does not reach are held; all where nothing remains. The walk ends at edge.
#[tactic(auto, using(crate::proofs::Steps::edge_says, crate::proofs::Steps::follows_ends, crate::proofs::Steps::held_whole, crate::proofs::Steps::edge_ends, crate::proofs::Steps::held_rest))]
pub fn hold_unreached(
    image: &[u8],
    map: &mut [u8],
    count: usize,
    f: &FileRecord,
    first: u32,
    edge: Place,
)
    requires { (Some edge ≡ edge_at image.now count f.now first) × (f.now.first_seq ≤ first) }
    ensures { map.new ≡ held_all map.old (unreached image.now count f.now first) }
{
    if first == f.last_seq {
        map::hold(map, usize::from(f.last_page));
        let last = chain::place_of(&chain::last_of(f));
        hold_back(image, map, count, last, f.first_seq, f.last_page);
        return;
    }
    hold_back(image, map, count, edge, f.first_seq, f.last_page);
}
