// Format and mount. Every function is total: an image and a map of any length, table and state of any value.
#![tactic(auto)]

ghost use Rattle.std.specs.Prelude.{◌≡◌, ◌≤◌, length, get_or, set, eqb};
ghost use Rattle.page.specs.Page.{page_of, meta_of};
ghost use Rattle.page.specs.Store.{ran};
ghost use Rattle.map.specs.Map.{cleared, used};
ghost use Rattle.chain.specs.Steps.{read_at, walk};
ghost use Rattle.state.specs.World.{before, after, after_call, yields, promised};
ghost use Rattle.volume.specs.Scan.{better, scan};
ghost use Rattle.volume.specs.Format.{erased_if, erasures, format_stores, format};
ghost use Rattle.volume.specs.Mount.{claimed, load, load_from, best_ok, mount_from, mount_best, mount};
ghost use Rattle.volume.specs.Loads.{marked_as, loaded_as, all_as};

use chain::{PagePointer, Step};
use metalog::Files;
use page::MetaHeader;
use state::types::{FileRecord, Refusal, State, Table};

// The best metadata page so far. Its seq is 0 for none yet and no Option, which would be compared as 0 all the same: a page counts
// only if its seq is above 0.
#[derive(Clone, Copy, Debug, PartialEq, Eq)]
pub struct Best {
    pub page: usize,
    pub page_count: u32,
    pub seq: u32,
}

// ---- the scan

// The better of the best so far and what was read on a page: only a higher seq replaces it.
#[tactic(auto, unfolding(crate::specs::Scan::better))]
fn better_meta(best: Best, page: usize, read: Option<MetaHeader>) -> Best
    ensures { result ≡ better best page read }
{
    // Each way returns by itself: where they meet in one value, a page of the scan takes twice the instructions.
    let Some(meta) = read else {
        return best;
    };
    if best.seq < meta.seq {
        return Best {
            page,
            page_count: meta.page_count,
            seq: meta.seq,
        };
    }
    best
}

// The best metadata page of the first so many pages.
#[tactic(auto, using(crate::proofs::Scans::scan_more), unfolding(crate::specs::Scan::scan))]
fn scan_meta(image: &[u8], pages: usize) -> Best
    ensures { result ≡ scan image.now pages }
{
    let mut best = Best {
        page: 0,
        page_count: 0,
        seq: 0,
    };
    for page in 0..pages {
        best = better_meta(best, page, page::meta_at(image, page));
    }
    best
}

// ---- format

// Erases page i if it is p or a metadata header reads there.
fn erase_if(image: &mut [u8], p: usize, i: usize)
    ensures { image.new ≡ ran image.old (erased_if p i (meta_of (page_of image.old i))) }
{
    if i == p || page::meta_at(image, i).is_some() {
        page::erase(image, i);
    }
}

// The same of the first n pages.
#[tactic(auto, using(crate::proofs::Erasures::erasures_more), unfolding(crate::specs::Format::erasures))]
fn erase_old(image: &mut [u8], p: usize, n: usize)
    ensures { image.new ≡ ran image.old (erasures image.old p n) }
{
    for i in 0..n {
        erase_if(image, p, i);
    }
}

#[tactic(auto, using(crate::proofs::Erasures::format_stores_lem))]
fn format_image(image: &mut [u8], p: usize, n: u16)
    ensures { image.new ≡ ran image.old (format_stores image.old p n) }
{
    erase_old(image, p, usize::from(n));
    let first = MetaHeader {
        page_count: u32::from(n),
        seq: 1,
    };
    page::store_meta(image, p, first);
}

// All pages below count are free, and page p is used.
fn fresh_map(map: &mut [u8], count: usize, p: usize)
    ensures { map.new ≡ set (cleared (length map.old) count) p used }
{
    map::clear(map, count);
    map::use_page(map, p);
}

#[tactic(auto, using(state::proofs::Laws::sizes_say, map::proofs::Laws::beyond_inside, crate::proofs::Calls::format_refused, crate::proofs::Calls::format_done))]
pub fn format(
    image: &mut [u8],
    map: &mut [u8],
    table: &mut Table,
    state: &mut State,
) -> Result<(), Refusal>
    ensures { yields result image.new map.new table.new state.new ≡ promised format (before image.old map.old table.old state.old) }
{
    let n = map.len();
    if !state::checks::sizes_fit(image.len(), n) {
        return Err(Refusal::BadSize);
    }
    let pages = n as u16;
    let seed = seq::seed::seed_step(state.seed);
    let p = (seed as usize) % n;
    format_image(image, p, pages);
    fresh_map(map, n, p);
    let cursor = map::beyond_page(p, n) as u16;
    *table = state::values::empty_table();
    *state = state::values::settle(pages, pages, p as u16, 1, cursor, seed);
    Ok(())
}

// ---- mount: one file

// Page p is used from now on. Whether it was free.
fn claim_page(map: &mut [u8], p: usize) -> bool
    ensures { (result ≡ eqb (get_or map.old p 0) 0) × (map.new ≡ set map.old p used) }
{
    let free = runs::byte_at(map, p) == map::FREE;
    map::use_page(map, p);
    free
}

// Walks back from page p and claims every page on the way. Where it fails the map is left half marked.
#[tactic(auto, using(crate::proofs::Claims::claims_page, crate::proofs::Claims::claims_taken, crate::proofs::Claims::claims_stays, crate::proofs::Claims::claims_breaks, crate::proofs::Claims::claims_reaches, crate::proofs::Claims::claims_fall))]
fn claim_walk(image: &[u8], count: usize, map: &mut [u8], p: &PagePointer, first: u32) -> bool
    ensures { marked_as result map.new ≡ claimed map.old p.now (walk count (read_at image.now) first p.now) (walk count (read_at image.now) first p.now).ends }
{
    let mut here = chain::place_of(p);
    loop {
        if !claim_page(map, usize::from(here.page_id)) {
            return false;
        }
        match chain::back(image, count, here, first) {
            Step::Stays => return true,
            Step::Breaks => return false,
            Step::Reaches(next) => here = next,
        }
    }
}

// The file whose last page is p, as an entry has it, if its pages are there and none is another's.
#[tactic(auto, using(crate::proofs::Exits::load_empty, crate::proofs::Exits::load_unread, crate::proofs::Exits::load_past, crate::proofs::Exits::load_over, crate::proofs::Exits::load_claimed, crate::proofs::Exits::load_unclaimed))]
fn load(
    image: &[u8],
    count: usize,
    map: &mut [u8],
    p: u16,
    first: u32,
    flags: u8,
) -> Option<FileRecord>
    ensures { loaded_as result map.new ≡ load image.now count map.old p first flags }
{
    if p == seq::ids::NONE {
        return Some(state::values::empty_record());
    }
    let header = page::header_at(image, usize::from(p))?;
    let end = u64::from(header.seq) + u64::from(header.length);
    if seq::numbers::SEQ_LIMIT < end || end <= u64::from(first) {
        return None;
    }
    let file = FileRecord {
        dirty: false,
        last_page: p,
        header,
        first_seq: first,
        last_seq: end as u32,
        flags,
    };
    let whole = claim_walk(image, count, map, &chain::last_of(&file), first);
    whole.then_some(file)
}

// ---- mount: all files, from the best metadata page

#[tactic(auto, using(crate::proofs::Exits::so_far_none, crate::proofs::Exits::so_far_bad, crate::proofs::Exits::so_far_more, crate::proofs::Exits::so_far_all), unfolding(state::specs::Values::empty_table))]
fn load_files(image: &[u8], count: usize, map: &mut [u8], f: &Files) -> Option<Table>
    ensures { all_as result map.new ≡ load_from image.now count f.now 0 8 map.old }
{
    let mut table = state::values::empty_table();
    for (i, file) in table.files.iter_mut().enumerate() {
        *file = load(image, count, map, f.last[i], f.first[i], f.flags[i])?;
    }
    Some(table)
}

// One was found, and its page_count is 1 to n and above its id.
#[tactic(auto, unfolding(crate::specs::Mount::best_ok))]
fn best_ok(n: usize, b: &Best) -> bool
    ensures { result ≡ best_ok n b.now }
{
    let count = b.page_count as usize;
    1 <= b.seq && b.page < count && count <= n
}

#[tactic(auto, using(crate::proofs::Exits::from_no_best, crate::proofs::Exits::from_none, crate::proofs::Exits::from_files))]
fn load_best(image: &[u8], map: &mut [u8], b: &Best) -> Option<Table>
    ensures { all_as result map.new ≡ mount_from image.now (length map.old) b.now }
{
    if !best_ok(map.len(), b) {
        return None;
    }
    let count = b.page_count as usize;
    let files = metalog::replay_at(image, b.page, count)?;
    fresh_map(map, count, b.page);
    load_files(image, count, map, &files)
}

#[tactic(auto, using(crate::proofs::Exits::all_chosen, crate::proofs::Calls::mount_done, crate::proofs::Calls::mount_damaged))]
fn mount_best(
    image: &[u8],
    map: &mut [u8],
    table: &mut Table,
    state: &mut State,
    best: &Best,
) -> Result<(), Refusal>
    requires { length map.old ≤ 1024 }
    ensures { after result image.now map.new table.new state.new ≡ after_call (λ w. mount_best w best.now) (before image.now map.old table.old state.old) }
{
    let Some(loaded) = load_best(image, map, best) else {
        map.fill(map::FREE);
        *state = state::values::new_state(state.seed);
        return Err(Refusal::Damaged);
    };
    let seed = seq::seed::seed_step(state.seed);
    let cursor = (seed % best.page_count) as u16;
    *table = loaded;
    *state = state::values::settle(
        map.len() as u16,
        best.page_count as u16,
        best.page as u16,
        best.seq,
        cursor,
        seed,
    );
    Ok(())
}

// ---- mount: the call

#[tactic(auto, using(state::proofs::Laws::sizes_say, crate::proofs::Calls::mount_refused, crate::proofs::Calls::mount_is))]
pub fn mount(
    image: &[u8],
    map: &mut [u8],
    table: &mut Table,
    state: &mut State,
) -> Result<(), Refusal>
    ensures { yields result image.now map.new table.new state.new ≡ promised mount (before image.now map.old table.old state.old) }
{
    let n = map.len();
    if !state::checks::sizes_fit(image.len(), n) {
        return Err(Refusal::BadSize);
    }
    let best = scan_meta(image, n);
    mount_best(image, map, table, state, &best)
}
