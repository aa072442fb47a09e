// Finishing a writer (Rust's commit), and discarding it.
#![tactic(auto, unfolding(state::specs::Values::with_file, state::specs::Values::with_writer, crate::specs::Finish::grown, crate::specs::Finish::finish, crate::specs::Finish::finished, crate::specs::Finish::discard))]

ghost use Rattle.std.specs.Prelude.{◌≡◌, true};
ghost use Rattle.chain.specs.Steps.{read_at};
ghost use Rattle.state.specs.Refusals.{fine};
ghost use Rattle.state.specs.Values.{file_at, with_file};
ghost use Rattle.state.specs.World.{before, after, ended, yields, promised};
ghost use Rattle.writer.specs.Staging.{staged_header};
ghost use Rattle.writer.specs.Finish.{grown, finished, finish, back_from, discard};
ghost use Rattle.writer.specs.Inner.{Ends, unbroken, freed_by};

use chain::{PagePointer, Step};
use page::DataHeader;
use state::types::{FileRecord, Refusal, State, Table, Writer};

// ---- finish

// The file ends with the staged page.
fn grow(table: &mut Table, w: &Writer, header: DataHeader)
    requires { Ends w.now × (header ≡ staged_header w.now) }
    ensures { table.new ≡ with_file table.old w.now.file (grown (file_at table.old w.now.file) w.now) }
{
    let file = usize::from(w.file);
    table.files[file] = FileRecord {
        dirty: true,
        last_page: w.page,
        header,
        last_seq: w.seq + u32::from(w.length),
        ..table.files[file]
    };
}

// The staged page is stored, the copied one held, and a transaction opened.
fn finish_page(image: &mut [u8], map: &mut [u8], table: &mut Table, state: &mut State)
    requires { Ends state.old.writer }
    ensures { after fine image.new map.new table.new state.new ≡ ended (before image.old map.old table.old state.old) (finished (before image.old map.old table.old state.old) state.old.writer) }
{
    let w = &state.writer;
    let header = crate::staging::staged_header(w);
    crate::staging::flush_header(image, w, header);
    crate::staging::mark_page(map, w.copied, map::HELD);
    grow(table, w, header);
    state::values::open_transaction(state);
    state.writer = state::values::no_writer();
}

pub fn finish(
    image: &mut [u8],
    map: &mut [u8],
    table: &mut Table,
    state: &mut State,
) -> Result<(), Refusal>
    ensures { yields result image.new map.new table.new state.new ≡ promised finish (before image.old map.old table.old state.old) }
{
    state::checks::check(image.len(), map.len(), state, false, 0)?;
    crate::staging::require_open(state)?;
    if !crate::staging::is_staged(&state.writer) {
        state.writer = state::values::no_writer();
        return Ok(());
    }
    finish_page(image, map, table, state);
    Ok(())
}

// ---- discard

// Whether the last n pages from p back are all there. One step fewer than pages.
#[tactic(auto, using(crate::proofs::Backs::unbroken_first, crate::proofs::Backs::unbroken_more, crate::proofs::Backs::unbroken_stuck, crate::proofs::Backs::unbroken_last))]
fn is_unbroken(image: &[u8], count: usize, p: &PagePointer, n: u32) -> bool
    ensures { result ≡ unbroken (back_from count (read_at image.now) n p.now) }
{
    let mut here = chain::place_of(p);
    for _ in 1..n {
        let Step::Reaches(next) = chain::back(image, count, here, 0) else {
            return false;
        };
        here = next;
    }
    true
}

// Frees them, once it is known that they are there: a discard that is refused changes nothing. A walk shared with the function
// above would call a closure on each page, and its contract would be longer than both loops.
#[tactic(auto, using(crate::proofs::Backs::unbroken_first, crate::proofs::Backs::unbroken_more, crate::proofs::Backs::unbroken_stuck, crate::proofs::Backs::freed_none, crate::proofs::Backs::freed_start, crate::proofs::Backs::freed_more, crate::proofs::Backs::freed_end))]
fn free_back(image: &[u8], map: &mut [u8], count: usize, p: &PagePointer, n: u32)
    requires { unbroken (back_from count (read_at image.now) n p.now) ≡ true }
    ensures { map.new ≡ freed_by map.old (back_from count (read_at image.now) n p.now) }
{
    if n == 0 {
        return;
    }
    let mut here = chain::place_of(p);
    map::free(map, usize::from(here.page_id));
    for _ in 1..n {
        let Step::Reaches(next) = chain::back(image, count, here, 0) else {
            return;
        };
        here = next;
        map::free(map, usize::from(here.page_id));
    }
}

// Exactly the pages that this writer allocated are free at once; the cursor stays.
pub fn discard(
    image: &[u8],
    map: &mut [u8],
    table: &Table,
    state: &mut State,
) -> Result<(), Refusal>
    ensures { yields result image.now map.new table.now state.new ≡ promised discard (before image.now map.old table.now state.old) }
{
    state::checks::check(image.len(), map.len(), state, false, 0)?;
    crate::staging::require_open(state)?;
    let w = &state.writer;
    let count = usize::from(state.page_count);
    let previous = crate::staging::previous_of(w);
    if !is_unbroken(image, count, &previous, w.stored) {
        return Err(Refusal::Damaged);
    }
    free_back(image, map, count, &previous, w.stored);
    crate::staging::mark_page(map, w.page, map::FREE);
    state.writer = state::values::no_writer();
    Ok(())
}
