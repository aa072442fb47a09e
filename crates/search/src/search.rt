// Search: start, left and right. One search exists at a time, in the state.
ghost use Rattle.std.specs.Prelude.{◌≡◌, ◌≤◌};
ghost use Rattle.seq.specs.Seq.{limit};
ghost use Rattle.chain.specs.Steps.{read_at};
ghost use Rattle.state.specs.World.{before};
ghost use Rattle.search.specs.Hunt.{hunt};
ghost use Rattle.search.specs.Search.{offering, start_of, left_of, right_of, start, left, right, turn};
ghost use Rattle.search.specs.Told.{searched, yields, promised, replied, begun};

use crate::Answer;
use crate::hunt::{Hunted, Offer};
use state::types::{FileRecord, Refusal, Search, State, Table};

// Where a search stands before it seeks.
#[derive(Clone, Copy, Debug, PartialEq, Eq)]
pub struct Stand {
    pub file: u8,
    pub left: u32,
    pub right: u32,
    pub links: [u16; 9],
    pub result: u32,
}

// ---- where a search stands

fn start_of(file: u8, f: &FileRecord) -> Stand
    ensures { result ≡ start_of file f.now }
{
    Stand {
        file,
        left: f.first_seq,
        right: f.last_seq,
        links: chain::links_after(&chain::last_of(f), f.last_seq),
        result: f.first_seq,
    }
}

fn left_of(q: &Search) -> Stand
    ensures { result ≡ left_of q.now }
{
    Stand {
        file: q.file,
        left: q.left,
        right: q.low,
        links: q.low_links,
        result: q.result,
    }
}

fn right_of(q: &Search) -> Stand
    requires { q.now.high ≤ limit }
    ensures { result ≡ right_of q.now }
{
    Stand {
        file: q.file,
        left: q.high + 1,
        right: q.right,
        links: q.right_links,
        result: q.mid,
    }
}

// ---- what comes of it

fn offering(s: &Stand, left: u32, o: &Offer) -> Search
    ensures { result ≡ offering s.now left o.now }
{
    Search {
        active: true,
        file: s.file,
        left,
        right: s.right,
        right_links: s.links,
        result: s.result,
        low: o.low,
        low_links: o.links,
        mid: o.mid,
        high: o.high,
    }
}

// A false answer leaves no search, a Damaged one the old.
fn sought(image: &[u8], count: usize, search: &mut Search, s: &Stand) -> Result<Answer, Refusal>
    ensures { searched result search.new ≡ replied search.old s.now (hunt count (read_at image.now) s.now.left s.now.right s.now.links) }
{
    match crate::hunt::hunt(image, count, s) {
        Hunted::Offered { left, offer } => {
            *search = offering(s, left, &offer);
            Ok(Answer::Offer(offer.mid))
        }
        Hunted::Ended => {
            *search = state::values::no_search();
            Ok(Answer::End(s.result))
        }
        Hunted::Broken => Err(Refusal::Damaged),
    }
}

// ---- start

// The answer for a file's record.
fn begin(
    image: &[u8],
    count: usize,
    search: &mut Search,
    file: u8,
    f: &FileRecord,
) -> Result<Answer, Refusal>
    ensures { searched result search.new ≡ begun search.old count (read_at image.now) file f.now }
{
    if f.is_empty() {
        *search = state::values::no_search();
        return Ok(Answer::End(f.first_seq));
    }
    if !state::values::in_shape(f, count) {
        return Err(Refusal::Damaged);
    }
    sought(image, count, search, &start_of(file, f))
}

// Starts a search in a file.
pub fn search(
    image: &[u8],
    map: &[u8],
    table: &Table,
    state: &mut State,
    file: u8,
) -> Result<Answer, Refusal>
    ensures { yields result image.now map.now table.now state.new ≡ promised (λ w. start w file) (before image.now map.now table.now state.old) }
{
    state::checks::check(image.len(), map.len(), state, state.transaction, file)?;
    let count = state.page_count as usize;
    begin(
        image,
        count,
        &mut state.search,
        file,
        &table.files[file as usize],
    )
}

// ---- left and right

// The answer to the position on offer, right or left, as C asks it by a flag (docs/DECISIONS.md, 44). No table is looked at.
pub fn turn(image: &[u8], map: &[u8], state: &mut State, to_right: bool) -> Result<Answer, Refusal>
    ensures { (t : Table) → yields result image.now map.now t state.new ≡ promised (turn to_right) (before image.now map.now t state.old) }
{
    state::checks::check(image.len(), map.len(), state, state.transaction, 0)?;
    if !state.search.active {
        return Err(Refusal::NoSearch);
    }
    let count = state.page_count as usize;
    if to_right {
        let from = right_of(&state.search);
        return sought(image, count, &mut state.search, &from);
    }
    let from = left_of(&state.search);
    sought(image, count, &mut state.search, &from)
}

// The record that is looked for lies left of the position on offer.
pub fn left(image: &[u8], map: &[u8], state: &mut State) -> Result<Answer, Refusal>
    ensures { (t : Table) → yields result image.now map.now t state.new ≡ promised left (before image.now map.now t state.old) }
{
    turn(image, map, state, false)
}

// It lies there or right of it.
pub fn right(image: &[u8], map: &[u8], state: &mut State) -> Result<Answer, Refusal>
    ensures { (t : Table) → yields result image.now map.now t state.new ≡ promised right (before image.now map.now t state.old) }
{
    turn(image, map, state, true)
}
