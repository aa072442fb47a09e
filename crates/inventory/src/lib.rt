// What an image holds, as the listing program prints it.
#![tactic(auto)]

ghost use Rattle.std.specs.Prelude.{◌≡◌};
ghost use Rattle.inventory.specs.Inventory.{counted_from, line_of, lines_of, inventory_of};

use chain::{PagePointer, Step};
use state::types::{FileRecord, Refusal, Table};
use std::array;

// The most pages of an image that is listed.
const MOST_PAGES: usize = 256;

// A file that is not empty.
#[derive(Clone, Copy, Debug, PartialEq, Eq)]
pub struct FileLine {
    pub first: u32,
    pub last: u32,
    pub flags: u8,
    pub pages: u64,
}

// The pages of the walk from p back to limit, if it ends at one.
#[tactic(auto, using(crate::proofs::Pages::counts_page, crate::proofs::Pages::counts_stays, crate::proofs::Pages::counts_breaks, crate::proofs::Pages::counts_reaches, crate::proofs::Pages::counts_fall))]
fn count_pages(image: &[u8], count: usize, p: &PagePointer, limit: u32) -> Option<u64>
    ensures { result ≡ counted_from image.now count limit 1 p.now }
{
    let mut here = chain::place_of(p);
    let mut n = 1;
    loop {
        match chain::back(image, count, here, limit) {
            Step::Stays => return Some(n),
            Step::Breaks => return None,
            Step::Reaches(next) => here = next,
        }
        n += 1;
    }
}

// A file's line, if it has one. A walk that breaks, as none does once an image is mounted, counts no pages.
#[tactic(auto, unfolding(crate::specs::Inventory::line_of, crate::specs::Inventory::pages_of))]
fn line_of(image: &[u8], count: usize, f: &FileRecord) -> Option<FileLine>
    ensures { result ≡ line_of image.now count f.now }
{
    if f.is_empty() {
        return None;
    }
    let first = f.first_seq;
    Some(FileLine {
        first,
        last: f.last_seq,
        flags: f.flags,
        pages: count_pages(image, count, &chain::last_of(f), first).unwrap_or(0),
    })
}

// All eight.
fn lines_of(image: &[u8], count: usize, t: &Table) -> [Option<FileLine>; 8]
    ensures { result ≡ lines_of image.now count t.now }
{
    array::from_fn(|i| line_of(image, count, &t.files[i]))
}

// The image, of up to 256 pages, mounted with seed 1: a line for each file that is not empty.
#[tactic(auto, using(crate::proofs::Exits::list_long, crate::proofs::Exits::list_refused, crate::proofs::Exits::list_files))]
pub fn list_image(image: &[u8]) -> Result<[Option<FileLine>; 8], Refusal>
    ensures { result ≡ inventory_of image.now }
{
    if MOST_PAGES * page::PAGE_SIZE < image.len() {
        return Err(Refusal::BadSize);
    }
    let mut map = [0; MOST_PAGES];
    let pages = image.len() / page::PAGE_SIZE;
    let mut table = state::values::empty_table();
    let mut state = state::values::new_state(1);
    volume::mount(image, &mut map[..pages], &mut table, &mut state)?;
    Ok(lines_of(image, usize::from(state.page_count), &table))
}
