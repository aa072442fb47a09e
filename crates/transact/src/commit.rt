// Commit: one batch of the dirty files, on the metadata page or on a new one.
ghost use Rattle.std.specs.Prelude.{◌≡◌, ◌≤◌, set};
ghost use Rattle.map.specs.Map.{used, free, released};
ghost use Rattle.metalog.specs.Log.{log_end};
ghost use Rattle.state.specs.Values.{closed, with_meta, with_cursor};
ghost use Rattle.state.specs.World.{before, after, after_call, yields, promised};
ghost use Rattle.transact.specs.Commit.{dirty_files, moved, appended_at, commit};

use crate::batch;
use page::MetaHeader;
use state::types::{Refusal, State, Table};

// The map after a move: the new page is used, held pages are free, and so is the old page.
fn move_map(map: &mut [u8], page: usize, old: usize)
    ensures { map.new ≡ set (released (set map.old page used)) old free }
{
    map::use_page(map, page);
    map::release(map);
    map::free(map, old);
}

// The state after a move: the transaction ends.
#[tactic(auto, unfolding(state::specs::Values::closed, state::specs::Values::with_meta, state::specs::Values::with_cursor))]
fn move_state(state: &mut State, page: u16, seq: u32, cursor: u16)
    ensures { state.new ≡ closed (with_cursor (with_meta state.old page seq) cursor) }
{
    state.meta_page = page;
    state.meta_seq = seq;
    state.cursor = cursor;
    state.transaction = false;
}

// A commit whose batch has no place on the metadata page.
#[tactic(auto, unfolding(crate::specs::Commit::moved))]
fn commit_moved(
    image: &mut [u8],
    map: &mut [u8],
    table: &Table,
    state: &mut State,
) -> Result<(), Refusal>
    requires { state.old.cursor ≤ state.old.page_count }
    ensures { after result image.new map.new table.now state.new
        ≡ after_call moved (before image.old map.old table.now state.old) }
{
    let seq = state.meta_seq.checked_add(1).ok_or(Refusal::SeqEnd)?;
    let count = usize::from(state.page_count);
    let page = map::find_free(map, count, usize::from(state.cursor)).ok_or(Refusal::NoRoom)?;
    let header = MetaHeader {
        page_count: u32::from(state.page_count),
        seq,
    };
    batch::store_live(image, table, page, header);
    move_map(map, page, usize::from(state.meta_page));
    let cursor = map::beyond_page(page, count);
    move_state(state, page as u16, seq, cursor as u16);
    Ok(())
}

// What is kept is kept: held pages are free, and the transaction ends.
#[tactic(auto, unfolding(state::specs::Values::closed))]
fn settle(map: &mut [u8], state: &mut State)
    ensures pages { map.new ≡ released map.old }
    ensures closes { state.new ≡ closed state.old }
{
    map::release(map);
    state.transaction = false;
}

// A commit of a batch: on the metadata page where it fits and the rest is all 0xFF.
#[tactic(auto, unfolding(state::specs::Values::closed))]
fn commit_batch(
    image: &mut [u8],
    map: &mut [u8],
    table: &Table,
    state: &mut State,
) -> Result<(), Refusal>
    requires { state.old.cursor ≤ state.old.page_count }
    ensures { after result image.new map.new table.now state.new
        ≡ after_call (λ w. appended_at w (dirty_files w.table) (log_end w.image w.state.meta_page))
        (before image.old map.old table.now state.old) }
{
    let meta = usize::from(state.meta_page);
    let end = metalog::log_end(image, meta).ok_or(Refusal::Damaged)?;
    let count = batch::count_dirty(table);
    if metalog::fits(end, count) && metalog::rest_erased(image, meta, end) {
        batch::append_dirty(image, table, meta, end);
        settle(map, state);
        return Ok(());
    }
    commit_moved(image, map, table, state)
}

// Commits the dirty files. With none dirty nothing is stored and the log is not looked at.
#[tactic(auto, unfolding(state::specs::Values::closed, crate::specs::Commit::commit, crate::specs::Commit::commit_batch), using(state::proofs::Laws::checks_pass))]
pub fn commit(
    image: &mut [u8],
    map: &mut [u8],
    table: &Table,
    state: &mut State,
) -> Result<(), Refusal>
    ensures { yields result image.new map.new table.now state.new
        ≡ promised commit (before image.old map.old table.now state.old) }
{
    state::checks::check(image.len(), map.len(), state, state.writer.active, 0)?;
    if batch::count_dirty(table) == 0 {
        settle(map, state);
        return Ok(());
    }
    commit_batch(image, map, table, state)
}
