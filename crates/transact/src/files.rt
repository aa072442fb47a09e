// What a truncation makes of a file's record.
ghost use Rattle.std.specs.Prelude.{◌≡◌};
ghost use Rattle.transact.specs.Truncate.{new_first, emptied, cut};

use state::types::FileRecord;

// first_seq advanced by the smaller of bytes and length.
pub fn new_first(f: &FileRecord, bytes: usize) -> u32
    ensures { result ≡ new_first f.now bytes }
{
    let length = f.last_seq.saturating_sub(f.first_seq);
    f.first_seq + bytes.min(length as usize) as u32
}

// The record of a file of which nothing remains, dirty.
#[tactic(auto, unfolding(crate::specs::Truncate::emptied, state::specs::Values::empty_record))]
pub fn emptied() -> FileRecord
    ensures { result ≡ emptied }
{
    FileRecord {
        dirty: true,
        ..state::values::empty_record()
    }
}

// The record with that first_seq, dirty; where nothing remains it is empty.
#[tactic(auto, unfolding(crate::specs::Truncate::cut, crate::specs::Truncate::advanced))]
pub fn cut(f: &FileRecord, first: u32) -> FileRecord
    ensures { result ≡ cut f.now first }
{
    if first == f.last_seq {
        return emptied();
    }
    FileRecord {
        dirty: true,
        first_seq: first,
        ..*f
    }
}
