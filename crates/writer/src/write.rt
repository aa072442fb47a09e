// Writing, page by page, and the end of a record.
#![tactic(auto, unfolding(state::specs::Values::with_cursor, state::specs::Values::with_writer, crate::specs::Staging::flushed, crate::specs::Staging::on_page, crate::specs::Staging::filled_by, crate::specs::Staging::record_ended, crate::specs::Inner::may_write, crate::specs::Write::ready, crate::specs::Write::record_end))]

ghost use Rattle.std.specs.Prelude.{◌≡◌, ◌+◌, ◌<◌, length};
ghost use Rattle.page.specs.Store.{ran};
ghost use Rattle.state.specs.World.{before, yields, promised};
ghost use Rattle.writer.specs.Staging.{staged_header, next_boundary, flushed, on_page, filled_by, record_ended};
ghost use Rattle.writer.specs.Write.{next_page, ready, write, record_end};
ghost use Rattle.writer.specs.Inner.{stores_of, unstaged, begins, wrote, writes, written, Able, Sound, may_write};

use page::DataHeader;
use state::types::{Refusal, State, Table, Writer};

// ---- the next page

// The next page gets boundary 0 if a record ended exactly there, else none.
fn next_boundary(ended: bool) -> u16
    ensures { result ≡ next_boundary ended }
{
    if ended { 0 } else { state::values::NO_BOUNDARY }
}

// The writer's page was stored with this header.
fn stored(w: &mut Writer, header: DataHeader)
    requires { (w.old.seq + w.old.length < 4294967296) × (w.old.stored < 4294967295) × (header ≡ staged_header w.old) }
    ensures { w.new ≡ flushed w.old }
{
    w.seq += u32::from(w.length);
    w.previous = w.page;
    w.previous_header = header;
    w.page = seq::ids::NONE;
    w.boundary = next_boundary(w.ended);
    w.stored += 1;
    w.length = 0;
}

fn staged_on(w: &mut Writer, page: u16)
    ensures { w.new ≡ on_page w.old page }
{
    w.page = page;
    w.length = 0;
}

// A staged page is stored.
#[tactic(auto, using(crate::proofs::Pages::flush_by))]
fn flush(image: &mut [u8], w: &mut Writer)
    requires { (w.old.seq + w.old.length < 4294967296) × (w.old.stored < 4294967295) }
    ensures { (image.new ≡ ran image.old (stores_of w.old)) × (w.new ≡ unstaged w.old) }
{
    if !crate::staging::is_staged(w) {
        return;
    }
    let header = crate::staging::staged_header(w);
    crate::staging::flush_header(image, w, header);
    stored(w, header);
}

// Then a page is allocated.
fn next_page(image: &mut [u8], map: &mut [u8], state: &mut State)
    requires { Able state.old.page_count state.old.cursor state.old.writer }
    ensures { writes image.new map.new state.new ≡ wrote image.old state.old (next_page state.old.page_count (begins map.old state.old)) }
{
    flush(image, &mut state.writer);
    if let Some(p) = crate::staging::allocate(map, state) {
        staged_on(&mut state.writer, p);
    }
}

// A full page is stored when the next byte comes.
fn ready(image: &mut [u8], map: &mut [u8], state: &mut State)
    requires { Able state.old.page_count state.old.cursor state.old.writer }
    ensures { writes image.new map.new state.new ≡ wrote image.old state.old (ready state.old.page_count (begins map.old state.old)) }
{
    if crate::staging::space_left(&state.writer) == 0 {
        next_page(image, map, state);
    }
}

// Bytes more on the staged page.
fn put(w: &mut Writer, bytes: &[u8])
    requires { w.old.length + length bytes.now < 65536 }
    ensures { w.new ≡ filled_by w.old bytes.now }
{
    runs::place(&mut w.staged, usize::from(w.length), bytes);
    w.ended = false;
    w.length += bytes.len() as u16;
}

// ---- a write

// Page by page: each turn takes as many bytes as the page has room for.
fn write_all(image: &mut [u8], map: &mut [u8], state: &mut State, bytes: &[u8])
    requires { Sound state.old.page_count (length bytes.now) map.old state.old.cursor state.old.writer }
    ensures { writes image.new map.new state.new ≡ written image.old map.old state.old bytes.now }
{
    let mut rest = bytes;
    while !rest.is_empty() {
        ready(image, map, state);
        let w = &mut state.writer;
        let (now, later) = rest.split_at(crate::staging::space_left(w).min(rest.len()));
        put(w, now);
        rest = later;
    }
}

// Whether a write of some bytes is refused: NoSearch without a writer, else SeqEnd, then NoRoom.
fn may_write(map: &[u8], state: &State, len: usize) -> Result<(), Refusal>
    ensures { result ≡ may_write map.now state.now len }
{
    crate::staging::require_open(state)?;
    let w = &state.writer;
    let end = u64::from(w.seq) + u64::from(w.length);
    if seq::numbers::SEQ_LIMIT < end.saturating_add(len as u64) {
        return Err(Refusal::SeqEnd);
    }
    let k = crate::staging::pages_for(crate::staging::space_left(w), len);
    if crate::staging::too_few(map, state.page_count, k) {
        return Err(Refusal::NoRoom);
    }
    Ok(())
}

// Whole or refused.
#[tactic(auto, using(state::proofs::Laws::checks_pass, crate::proofs::Exits::may_sound, crate::proofs::Exits::write_by), unfolding(crate::specs::Write::write))]
pub fn write(
    image: &mut [u8],
    map: &mut [u8],
    table: &Table,
    state: &mut State,
    bytes: &[u8],
) -> Result<(), Refusal>
    ensures { yields result image.new map.new table.now state.new ≡ promised (λ w. write w bytes.now) (before image.old map.old table.now state.old) }
{
    state::checks::check(image.len(), map.len(), state, false, 0)?;
    if bytes.is_empty() {
        return Ok(());
    }
    may_write(map, state, bytes.len())?;
    write_all(image, map, state, bytes);
    Ok(())
}

// ---- a record's end

fn ended(w: &mut Writer)
    ensures { w.new ≡ record_ended w.old }
{
    w.ended = true;
    if crate::staging::is_staged(w) && w.boundary == state::values::NO_BOUNDARY {
        w.boundary = w.length;
    }
}

pub fn record_end(image: &[u8], map: &[u8], table: &Table, state: &mut State) -> Result<(), Refusal>
    ensures { yields result image.now map.now table.now state.new ≡ promised record_end (before image.now map.now table.now state.old) }
{
    state::checks::check(image.len(), map.len(), state, false, 0)?;
    crate::staging::require_open(state)?;
    ended(&mut state.writer);
    Ok(())
}
