// The staged page: its room, its header and its stores.
#![tactic(auto, unfolding(crate::specs::Staging::staged_links, crate::specs::Staging::staged_header, crate::specs::Staging::space, crate::specs::Staging::pages_for, crate::specs::Staging::too_few))]

ghost use Rattle.std.specs.Prelude.{◌≡◌, ◌≤◌, ◌<◌, take};
ghost use Rattle.map.specs.Map.{alloc_of, used_by};
ghost use Rattle.page.specs.Store.{ran, data_stores};
ghost use Rattle.writer.specs.Staging.{is_staged, previous_of, named_below, staged_links, staged_header, space, pages_for, too_few};
ghost use Rattle.writer.specs.Finish.{marked};
ghost use Rattle.writer.specs.Inner.{open_only, moved_on};

use chain::PagePointer;
use page::DataHeader;
use seq::ids::{OptionPageID, PageID};
use state::types::{Refusal, State, Writer};

// ---- the writer

// NoSearch without a writer.
pub fn require_open(state: &State) -> Result<(), Refusal>
    ensures { result ≡ open_only state.now }
{
    if !state.writer.active {
        return Err(Refusal::NoSearch);
    }
    Ok(())
}

pub fn is_staged(w: &Writer) -> bool
    ensures { result ≡ is_staged w.now }
{
    OptionPageID::from_raw(w.page).is_some()
}

// ---- room

// What is left on the staged page.
pub fn space_left(w: &Writer) -> usize
    ensures { result ≡ space w.now }
{
    if !is_staged(w) {
        return 0;
    }
    page::PAYLOAD_SIZE.saturating_sub(usize::from(w.length))
}

// How many further pages len bytes begin.
pub fn pages_for(left: usize, len: usize) -> usize
    ensures { result ≡ pages_for left len }
{
    len.saturating_sub(left).div_ceil(page::PAYLOAD_SIZE)
}

// One free page is kept back. Where no page is wanted the map is not looked at.
pub fn too_few(map: &[u8], count: u16, k: usize) -> bool
    ensures { result ≡ too_few map.now count k }
{
    k != 0 && map::count_free(map, usize::from(count)) <= k
}

// The next free page is used from now on, and the cursor lies one beyond it.
pub fn allocate(map: &mut [u8], state: &mut State) -> Option<u16>
    requires { (state.old.page_count ≤ 1024) × (state.old.cursor < state.old.page_count) }
    ensures { (result ≡ alloc_of map.old state.old.page_count state.old.cursor) × (map.new ≡ used_by map.old result) × (state.new ≡ moved_on state.old result) }
{
    let count = usize::from(state.page_count);
    let p = map::allocate(map, count, usize::from(state.cursor))?;
    // the state is C's, in which an id has 16 bits
    state.cursor = map::beyond_page(p, count) as u16;
    Some(p as u16)
}

// ---- the page

// A boundary not below the page's length is written as none.
fn kept_boundary(boundary: u16, length: u16) -> u16
    ensures { result ≡ named_below boundary length }
{
    if boundary < length {
        boundary
    } else {
        state::values::NO_BOUNDARY
    }
}

// The page before the staged one.
pub fn previous_of(w: &Writer) -> PagePointer
    ensures { result ≡ previous_of w.now }
{
    PagePointer {
        page_id: w.previous,
        header: w.previous_header,
    }
}

fn staged_links(w: &Writer) -> [u16; 9]
    ensures { result ≡ staged_links w.now }
{
    if w.previous == seq::ids::NONE {
        return chain::no_links();
    }
    chain::links_after(&previous_of(w), w.seq)
}

pub fn staged_header(w: &Writer) -> DataHeader
    ensures { result ≡ staged_header w.now }
{
    let skiplist = staged_links(w);
    DataHeader {
        seq: w.seq,
        skiplist,
        record_boundary: kept_boundary(w.boundary, w.length),
        length: w.length,
    }
}

// The staged page's three stores.
pub fn flush_header(image: &mut [u8], w: &Writer, header: DataHeader)
    ensures { image.new ≡ ran image.old (data_stores w.now.page header (take header.length w.now.staged)) }
{
    let n = usize::from(header.length).min(w.staged.len());
    page::store_data(image, usize::from(w.page), header, &w.staged[..n]);
}

// An id's byte becomes v, and none has none.
pub fn mark_page(map: &mut [u8], id: u16, v: u8)
    ensures { map.new ≡ marked map.old id v }
{
    if let Some(page) = PageID::from_raw(id) {
        map::mark(map, page.index(), v);
    }
}
