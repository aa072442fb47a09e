// Small questions of a reader, of the files and of the pages (DECISIONS 46): each looks at no more than it is handed.
#![tactic(auto, unfolding(crate::specs::Ask::reader_at, crate::specs::Ask::empty_says, crate::specs::Ask::flags_at))]

ghost use Rattle.std.specs.Prelude.{◌≡◌};
ghost use Rattle.state.specs.Values.{offset_in};
ghost use Rattle.reader.specs.Ask.{reader_at, empty_says, flags_at, with_flag, free_pages, used_pages};

use crate::Reader;
use state::types::{Refusal, State, Table};
use std::array;

// A new reader of a file.
pub fn reader_of(table: &Table, file: u8) -> Reader
    ensures { result ≡ reader_at table.now file }
{
    let seq = table.files.get(file as usize).map_or(0, |f| f.first_seq);
    Reader { file, seq }
}

// How far behind the file's first number a reader stands.
pub fn offset(table: &Table, reader: Reader) -> Result<u64, Refusal>
    ensures { result ≡ offset_in table.now reader.file reader.seq }
{
    state::values::offset_in(table, reader.file, u64::from(reader.seq))
}

pub fn curr_seq(reader: Reader) -> u32
    ensures { result ≡ reader.seq }
{
    reader.seq
}

pub fn is_empty(table: &Table, file: u8) -> Result<bool, Refusal>
    ensures { result ≡ empty_says table.now file }
{
    match table.files.get(file as usize) {
        Some(f) => Ok(f.is_empty()),
        None => Err(Refusal::BadFile),
    }
}

pub fn file_flags(table: &Table, file: u8) -> u8
    ensures { result ≡ flags_at table.now file }
{
    table.files.get(file as usize).map_or(0, |f| f.flags)
}

// The files that have one of the flags, by their ids.
#[tactic(auto, unfolding(crate::specs::Ask::flags_at))]
pub fn files_with_flag(table: &Table, flag: u8) -> [bool; 8]
    ensures { result ≡ with_flag table.now flag }
{
    array::from_fn(|i| table.files[i].flags & flag != 0)
}

pub fn free_pages(map: &[u8], state: &State) -> usize
    ensures { result ≡ free_pages map.now state.now }
{
    map::count_free(map, state.page_count as usize)
}

// The pages that are not free.
pub fn used_pages(map: &[u8], state: &State) -> usize
    ensures { result ≡ used_pages map.now state.now }
{
    (state.page_count as usize) - free_pages(map, state)
}
