// The world of a script, without its buffers: table and state, and how much of each buffer is lent.
ghost use Rattle.std.specs.Prelude.{◌≡◌};
ghost use Rattle.answers.specs.World.{fresh};

use state::types::{State, Table};

#[derive(Clone, Copy)]
pub struct World {
    pub table: Table,
    pub state: State,
    pub image: usize,
    pub map: usize,
}

impl World {
    pub fn fresh(seed: u32, image: usize, map: usize) -> World
        ensures { result ≡ fresh seed image map }
    {
        let table = state::values::empty_table();
        let state = state::values::new_state(seed);
        World {
            table,
            state,
            image,
            map,
        }
    }
}
