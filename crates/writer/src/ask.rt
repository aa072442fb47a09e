// The writer's small questions (DECISIONS 46): each looks at no more than it is handed.
ghost use Rattle.std.specs.Prelude.{◌≡◌};
ghost use Rattle.writer.specs.Ask.{space_left, curr_seq, offset_of};

use state::types::{Refusal, State, Table};

pub fn space_left_on_current_page(state: &State) -> Result<u64, Refusal>
    ensures { result ≡ space_left state.now }
{
    crate::staging::require_open(state)?;
    Ok(crate::staging::space_left(&state.writer) as u64)
}

// The number of the next byte.
pub fn curr_seq(state: &State) -> Result<u64, Refusal>
    ensures { result ≡ curr_seq state.now }
{
    crate::staging::require_open(state)?;
    Ok(u64::from(state.writer.seq) + u64::from(state.writer.length))
}

// How far it lies behind the first one of the writer's file.
pub fn offset(table: &Table, state: &State) -> Result<u64, Refusal>
    ensures { result ≡ offset_of table.now state.now }
{
    let n = curr_seq(state)?;
    state::values::offset_in(table, state.writer.file, n)
}
