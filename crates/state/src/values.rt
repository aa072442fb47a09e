// Fixed values, and the changes of a state that several calls make.
#![tactic(auto, unfolding(crate::specs::Values::empty_record, crate::specs::Values::empty_table, crate::specs::Values::no_writer, crate::specs::Values::no_search, crate::specs::Values::unmounted, crate::specs::Values::settled, crate::specs::Values::opened, crate::specs::Values::in_shape, crate::specs::Values::offset_in))]

ghost use Rattle.std.specs.Prelude.{◌≡◌, ◌<◌, Err};
ghost use Rattle.seq.specs.Seq.{reply, refused};
ghost use Rattle.page.specs.Page.{no_header};
ghost use Rattle.state.specs.Refusals.{number};
ghost use Rattle.state.specs.Values.{empty_record, empty_table, no_writer, no_search, unmounted, settled, opened, in_shape, is_empty, offset_in};

use crate::types::{FileRecord, Refusal, Search, State, Table, Writer};
use page::DataHeader;
use seq::numbers::SeqError;

// No record starts on a page whose header has this boundary.
pub const NO_BOUNDARY: u16 = 65535;

// The header of no page.
pub fn no_header() -> DataHeader
    ensures { result ≡ no_header }
{
    DataHeader {
        seq: 0,
        skiplist: [0; 9],
        record_boundary: 0,
        length: 0,
    }
}

pub fn empty_record() -> FileRecord
    ensures { result ≡ empty_record }
{
    FileRecord {
        dirty: false,
        last_page: seq::ids::NONE,
        header: no_header(),
        first_seq: 0,
        last_seq: 0,
        flags: 0,
    }
}

pub fn empty_table() -> Table
    ensures { result ≡ empty_table }
{
    Table {
        files: [empty_record(); 8],
    }
}

pub fn no_writer() -> Writer
    ensures { result ≡ no_writer }
{
    Writer {
        active: false,
        file: 0,
        seq: 0,
        page: seq::ids::NONE,
        previous: seq::ids::NONE,
        previous_header: no_header(),
        copied: seq::ids::NONE,
        boundary: NO_BOUNDARY,
        ended: false,
        stored: 0,
        length: 0,
        staged: [0; 224],
    }
}

pub fn no_search() -> Search
    ensures { result ≡ no_search }
{
    Search {
        active: false,
        file: 0,
        left: 0,
        right: 0,
        right_links: [seq::ids::NONE; 9],
        result: 0,
        low: 0,
        low_links: [seq::ids::NONE; 9],
        mid: 0,
        high: 0,
    }
}

// A fresh state, and what a Damaged mount leaves.
pub fn new_state(seed: u32) -> State
    ensures { result ≡ unmounted seed }
{
    State {
        mounted: false,
        pages: 0,
        page_count: 0,
        meta_page: 0,
        meta_seq: 0,
        cursor: 0,
        seed,
        transaction: false,
        writer: no_writer(),
        search: no_search(),
    }
}

// What format and mount leave: nothing is open.
pub fn settle(pages: u16, count: u16, meta: u16, seq: u32, cursor: u16, seed: u32) -> State
    ensures { result ≡ settled pages count meta seq cursor seed }
{
    State {
        mounted: true,
        pages,
        page_count: count,
        meta_page: meta,
        meta_seq: seq,
        cursor,
        seed,
        transaction: false,
        writer: no_writer(),
        search: no_search(),
    }
}

// A transaction opens: no search position stays on offer.
pub fn open_transaction(state: &mut State)
    ensures { state.new ≡ opened state.old }
{
    state.transaction = true;
    state.search = no_search();
}

impl FileRecord {
    // A file is empty exactly if its last page is none.
    pub fn is_empty(&self) -> bool
        ensures { result ≡ is_empty self.now }
    {
        self.last_page == seq::ids::NONE
    }
}

// Whether a call may follow the record.
pub fn in_shape(f: &FileRecord, count: usize) -> bool
    ensures { result ≡ in_shape count f.now }
{
    let h = &f.header;
    let end = (h.seq as u64) + (h.length as u64);
    ((f.last_page as usize) < count)
        & (1 <= h.length)
        & (h.length <= 224)
        & (end == f.last_seq as u64)
        & (f.first_seq < f.last_seq)
}

// How far a number lies behind a file's first one: for the small questions of reader and writer.
pub fn offset_in(table: &Table, file: u8, n: u64) -> Result<u64, Refusal>
    ensures { result ≡ offset_in table.now file n }
{
    if 7 < file {
        return Err(Refusal::BadFile);
    }
    let first = table.files[file as usize].first_seq as u64;
    if n < first {
        return Err(Refusal::Range);
    }
    Ok(n - first)
}

// Document 01's number of a refusal.
impl From<Refusal> for u8 {
    ghost from_gives = { λ why result. result ≡ number why };

    fn from(why: Refusal) -> u8 {
        why as u8
    }
}

impl From<SeqError> for Refusal {
    ghost from_gives = { λ why result. reply (Err why) ≡ refused (number result) };

    fn from(why: SeqError) -> Refusal {
        match why {
            SeqError::Range => Refusal::Range,
            SeqError::SeqEnd => Refusal::SeqEnd,
        }
    }
}
