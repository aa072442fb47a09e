// Flags: they stick only to files that are not empty.
ghost use Rattle.std.specs.Prelude.{◌≡◌};
ghost use Rattle.state.specs.World.{before, yields, promised};
ghost use Rattle.transact.specs.Rename.{flags as changed_by};

use state::types::{Refusal, State, Table};

// Changes a file's flags; a transaction is open then, even where nothing changed.
#[tactic(auto, unfolding(crate::specs::Rename::flags))]
pub fn change_flags(
    image: &[u8],
    map: &[u8],
    table: &mut Table,
    state: &mut State,
    file: u8,
    flags: u8,
) -> Result<(), Refusal>
    ensures { yields result image.now map.now table.new state.new
        ≡ promised (λ w. changed_by w file flags) (before image.now map.now table.old state.old) }
{
    state::checks::check(image.len(), map.len(), state, state.writer.active, file)?;
    state::flags::set_flags(table, usize::from(file), flags);
    state::values::open_transaction(state);
    Ok(())
}
