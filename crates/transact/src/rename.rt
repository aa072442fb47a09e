// Rename: two files are swapped.
ghost use Rattle.std.specs.Prelude.{◌≡◌, ◌<◌};
ghost use Rattle.state.specs.World.{before, yields, promised};
ghost use Rattle.transact.specs.Rename.{swapped, rename};

use state::types::{Refusal, State, Table};

// Both are marked dirty, also where they are the same.
fn swap(table: &mut Table, i: usize, j: usize)
    requires { (i < 8) × (j < 8) }
    ensures { table.new ≡ swapped table.old i j }
{
    table.files.swap(i, j);
    table.files[i].dirty = true;
    table.files[j].dirty = true;
}

// Swaps two files, also one with itself, and marks both dirty.
#[tactic(auto, unfolding(crate::specs::Rename::rename), using(state::proofs::Laws::checks_pass))]
pub fn rename(
    image: &[u8],
    map: &[u8],
    table: &mut Table,
    state: &mut State,
    from: u8,
    to: u8,
) -> Result<(), Refusal>
    ensures { yields result image.now map.now table.new state.new
        ≡ promised (λ w. rename w from to) (before image.now map.now table.old state.old) }
{
    state::checks::check(image.len(), map.len(), state, state.writer.active, from)?;
    if 7 < to {
        return Err(Refusal::BadFile);
    }
    swap(table, usize::from(from), usize::from(to));
    state::values::open_transaction(state);
    Ok(())
}
