// The values that calls take and change. All of them are plain data, as C has it: so flags and 65535 stand where Rust would have an Option,
// the staged bytes beside their length, and a caller may hand in any. A call takes image, map, table and state apart, since C lends each by
// itself and the call says by `&` or `&mut` which of them it may change.
use page::DataHeader;

// Rust's FileState: a file is empty exactly if last_page is none (65535).
#[repr(C)]
#[derive(Clone, Copy)]
pub struct FileRecord {
    pub dirty: bool,
    pub last_page: u16,
    pub header: DataHeader,
    pub first_seq: u32,
    pub last_seq: u32,
    pub flags: u8,
}

#[repr(C)]
#[derive(Clone, Copy)]
pub struct Table {
    pub files: [FileRecord; 8],
}

// Rust's FileWriter. Where no page is staged, seq and previous are those of the next page.
#[repr(C)]
#[derive(Clone, Copy)]
pub struct Writer {
    pub active: bool,
    pub file: u8,
    // first number of the staged page, or of the next page
    pub seq: u32,
    // the staged page's id or none
    pub page: u16,
    // the page before it in the chain or none, and that page's header
    pub previous: u16,
    pub previous_header: DataHeader,
    // the page that was copied or none
    pub copied: u16,
    // the boundary named so far or none
    pub boundary: u16,
    // a record ended just here
    pub ended: bool,
    // how many pages this writer has stored
    pub stored: u32,
    // how many bytes are staged
    pub length: u16,
    pub staged: [u8; 224],
}

// Rust's FileSearcher while a position is on offer: its page starts at low and has low_links, the record starts at mid.
#[repr(C)]
#[derive(Clone, Copy)]
pub struct Search {
    pub active: bool,
    pub file: u8,
    pub left: u32,
    pub right: u32,
    pub right_links: [u16; 9],
    pub result: u32,
    pub low: u32,
    pub low_links: [u16; 9],
    pub mid: u32,
    pub high: u32,
}

#[repr(C)]
#[derive(Clone, Copy)]
pub struct State {
    pub mounted: bool,
    // the pages of the image
    pub pages: u16,
    pub page_count: u16,
    pub meta_page: u16,
    pub meta_seq: u32,
    pub cursor: u16,
    pub seed: u32,
    pub transaction: bool,
    pub writer: Writer,
    pub search: Search,
}

// Why a call did nothing, with its number, as C and scripts have it.
#[derive(Clone, Copy, Debug, PartialEq, Eq)]
pub enum Refusal {
    BadSize = 1,
    NotMounted = 2,
    Busy = 3,
    BadFile = 4,
    Damaged = 5,
    Eof = 6,
    Short = 7,
    NoRoom = 8,
    SeqEnd = 9,
    NoSearch = 10,
    Gone = 11,
    Range = 12,
}
