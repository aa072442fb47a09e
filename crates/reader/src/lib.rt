// Reading: a reader is a file and a number, and reads what the file holds at the call.
#![tactic(auto)]

ghost use Rattle.std.specs.Prelude.{◌≡◌};
ghost use Rattle.state.specs.World.{before};
ghost use Rattle.reader.specs.Locate.{located_numbers, locate};
ghost use Rattle.reader.specs.Read.{after_read, read_told, read};
ghost use Rattle.reader.specs.Skip.{skipped_numbers, skip, seek_offset};

use state::types::{Refusal, State, Table};

pub mod ask;
mod pages;
mod reading;

#[derive(Clone, Copy, Debug, PartialEq, Eq)]
pub struct Reader {
    pub file: u8,
    pub seq: u32,
}

// The page of a number, and the headers read on the way.
#[derive(Clone, Copy, Debug, PartialEq, Eq)]
pub struct Located {
    pub page: u16,
    pub headers: u32,
}

// The page of a number, unopened: Rust's get_file_page.
#[tactic(auto, using(crate::proofs::Exits::known_file), unfolding(crate::specs::Locate::locate))]
pub fn locate(
    image: &[u8],
    map: &[u8],
    table: &Table,
    state: &State,
    file: u8,
    seq: u32,
) -> Result<Located, Refusal>
    ensures { located_numbers result ≡ located_numbers (locate (before image.now map.now table.now state.now) file seq) }
{
    state::checks::check(image.len(), map.len(), state, state.transaction, file)?;
    let f = &table.files[file as usize];
    pages::locate_in(image, state.page_count as usize, f, seq)
}

// Reads as many bytes as out has, and the reader moves on behind them. A refused read leaves the reader where it stood, and the
// output as it was; a Damaged one leaves the output zero.
#[tactic(auto, using(crate::proofs::Exits::known_file), unfolding(crate::specs::Read::read))]
pub fn read(
    image: &[u8],
    map: &[u8],
    table: &Table,
    state: &State,
    reader: &mut Reader,
    out: &mut [u8],
) -> Result<(), Refusal>
    ensures { read_told (after_read result reader.new out.new) ≡ read_told (read (before image.now map.now table.now state.now) reader.old out.old) }
{
    state::checks::check(
        image.len(),
        map.len(),
        state,
        state.transaction,
        reader.file,
    )?;
    let f = &table.files[reader.file as usize];
    reading::read_in(image, state.page_count as usize, f, reader, out)
}

// Passes len numbers by, and gives where the reader then stands.
#[tactic(auto, using(crate::proofs::Exits::known_file), unfolding(crate::specs::Skip::skip))]
pub fn skip(
    image: &[u8],
    map: &[u8],
    table: &Table,
    state: &State,
    reader: Reader,
    len: usize,
) -> Result<u32, Refusal>
    ensures { skipped_numbers result ≡ skipped_numbers (skip (before image.now map.now table.now state.now) reader len) }
{
    state::checks::check(
        image.len(),
        map.len(),
        state,
        state.transaction,
        reader.file,
    )?;
    let f = &table.files[reader.file as usize];
    pages::skip_in(image, state.page_count as usize, f, reader.seq, len)
}

// To an offset of the file: FileReader::seek.
#[tactic(auto, using(crate::proofs::Exits::seek_is))]
pub fn seek(
    image: &[u8],
    map: &[u8],
    table: &Table,
    state: &State,
    file: u8,
    offs: usize,
) -> Result<u32, Refusal>
    ensures { skipped_numbers result ≡ skipped_numbers (seek_offset (before image.now map.now table.now state.now) file offs) }
{
    skip(image, map, table, state, ask::reader_of(table, file), offs)
}
