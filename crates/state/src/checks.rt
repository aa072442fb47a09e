// Checks 1 to 4, in document 01's order, as every call makes them.
#![tactic(auto, unfolding(crate::specs::Checks::sizes, crate::specs::Checks::writer_ok, crate::specs::Checks::search_ok, crate::specs::Checks::is_mounted, crate::specs::Checks::wrong_size, crate::specs::Checks::checks))]

ghost use Rattle.std.specs.Prelude.{◌≡◌};
ghost use Rattle.state.specs.Checks.{sizes, id_ok, writer_ok, search_ok, is_mounted, wrong_size, checks};

use crate::types::{Refusal, Search, State, Writer};

// What no sequence number passes.
const LIMIT: u32 = seq::numbers::SEQ_LIMIT as u32;

// Check 1, as format and mount make it.
pub fn sizes_fit(image: usize, map: usize) -> bool
    ensures { result ≡ sizes image map }
{
    if 1024 < map {
        return false;
    }
    (4 <= map) & (image == 256 * map)
}

fn id_ok(count: u16, id: u16) -> bool
    ensures { result ≡ id_ok count id }
{
    (id == seq::ids::NONE) | (id < count)
}

fn writer_ok(count: u16, w: &Writer) -> bool
    ensures { result ≡ writer_ok count w.now }
{
    let end = (w.seq as u64) + (w.length as u64);
    let ids = id_ok(count, w.page) & id_ok(count, w.copied) & id_ok(count, w.previous);
    !w.active
        | ((w.file <= 7) & (w.length <= 224) & ids & (end <= LIMIT as u64) & (w.stored <= w.seq))
}

fn search_ok(q: &Search) -> bool
    ensures { result ≡ search_ok q.now }
{
    let ends = (q.left <= LIMIT) & (q.right <= LIMIT) & (q.result <= LIMIT);
    let offer = (q.low <= LIMIT) & (q.mid <= LIMIT) & (q.high <= LIMIT);
    !q.active | ((q.file <= 7) & ends & offer)
}

// A state counts as mounted if its flag says so and each of its numbers is in range.
pub fn is_mounted(s: &State) -> bool
    ensures { result ≡ is_mounted s.now }
{
    let pages = (4 <= s.pages)
        & (s.pages <= 1024)
        & (1 <= s.page_count)
        & (s.page_count <= s.pages);
    let places = (s.meta_page < s.page_count) & (s.cursor < s.page_count);
    s.mounted & pages & places & writer_ok(s.page_count, &s.writer) & search_ok(&s.search)
}

// Check 1, as every other call makes it.
fn wrong_size(image: usize, map: usize, mounted: bool, pages: u16) -> bool
    ensures { result ≡ wrong_size image map mounted pages }
{
    !sizes_fit(image, map) | (mounted & (map != pages as usize))
}

// All four.
pub fn check(image: usize, map: usize, s: &State, busy: bool, file: u8) -> Result<(), Refusal>
    ensures { result ≡ checks image map s.now busy file }
{
    let mounted = is_mounted(s);
    if wrong_size(image, map, mounted, s.pages) {
        return Err(Refusal::BadSize);
    }
    if !mounted {
        return Err(Refusal::NotMounted);
    }
    if busy {
        return Err(Refusal::Busy);
    }
    if 7 < file {
        return Err(Refusal::BadFile);
    }
    Ok(())
}
