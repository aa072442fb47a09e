// Truncate: first_seq advances, and the pages that are not reached any more are held.
ghost use Rattle.std.specs.Prelude.{◌≡◌};
ghost use Rattle.state.specs.World.{before, yields, promised};
ghost use Rattle.transact.specs.Truncate.{truncate};

use crate::{files, walk};
use state::types::{Refusal, State, Table};

// Advances first_seq by the smaller of bytes and length. The whole walk is checked before anything changes.
#[tactic(auto, unfolding(crate::specs::Truncate::truncate, crate::specs::Truncate::truncate_in, state::specs::Values::with_file), using(state::proofs::Laws::checks_pass))]
pub fn truncate(
    image: &[u8],
    map: &mut [u8],
    table: &mut Table,
    state: &mut State,
    file: u8,
    bytes: usize,
) -> Result<(), Refusal>
    ensures { yields result image.now map.new table.new state.new
        ≡ promised (λ w. truncate w file bytes) (before image.now map.old table.old state.old) }
{
    state::checks::check(image.len(), map.len(), state, state.writer.active, file)?;
    if bytes == 0 {
        return Ok(());
    }
    let i = usize::from(file);
    let f = &table.files[i];
    if f.is_empty() {
        table.files[i] = files::emptied();
        state::values::open_transaction(state);
        return Ok(());
    }
    let count = usize::from(state.page_count);
    let first = files::new_first(f, bytes);
    let edge = walk::edge_of(image, count, f, first).ok_or(Refusal::Damaged)?;
    walk::hold_unreached(image, map, count, f, first, edge);
    table.files[i] = files::cut(f, first);
    state::values::open_transaction(state);
    Ok(())
}
