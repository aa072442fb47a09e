// Flags, in place in the caller's table.
#![tactic(auto, unfolding(crate::specs::Values::flagged, crate::specs::Values::with_flags, crate::specs::Values::with_file))]

ghost use Rattle.std.specs.Prelude.{◌≡◌};
ghost use Rattle.state.specs.Values.{flagged, with_flags};

use crate::types::{FileRecord, Table};

// Flags stick only to a file that is not empty, and mark it dirty only if changed.
fn set_on(f: &mut FileRecord, flags: u8)
    ensures { f.new ≡ flagged f.old flags }
{
    if !f.is_empty() && f.flags != flags {
        f.flags = flags;
        f.dirty = true;
    }
}

// One file's flags. Where there is no such file the table stays.
pub fn set_flags(table: &mut Table, file: usize, flags: u8)
    ensures { table.new ≡ with_flags table.old file flags }
{
    if file < 8 {
        set_on(&mut table.files[file], flags);
    }
}
