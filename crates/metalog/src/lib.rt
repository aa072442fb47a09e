// The log of a metadata page: batches of entries after the page's header. A batch is a count and its complement, then as many
// entries. Every function is total: a page that the image has not has an empty log, and a store outside changes nothing.
#![tactic(auto)]

ghost use Rattle.std.specs.Prelude.{◌≡◌, true, cond, ◌&&◌, ◌*◌, ◌/◌, ◌≤◌, ◌<◌, length};
ghost use Rattle.std.specs.Iterator.{at_most};
ghost use Rattle.page.specs.Store.{stored, ran};
ghost use Rattle.metalog.specs.Log.{entry_size, good_pair, batch_at, entry_of, entries, area_of, log_of, end_of, log_end, rest_erased, fits, sound, put, no_files, add, adds, good, fresh, replayed, replay_of, taken};
ghost use Rattle.metalog.specs.Batches.{FirstBatch};
ghost use Rattle.metalog.specs.Batch.{entry_bytes, entries_bytes, pair_bytes, entry_for, chosen, marked, batch_stores, new_meta_stores};
ghost use Rattle.arrayvec.specs.ArrayVec.{array_vec_len};

use arrayvec::ArrayVec;

const LOG_START: usize = 12;

const LOG_SIZE: usize = 244;

const PAIR_SIZE: usize = 4;

const ENTRY_SIZE: usize = 8;

// The last page of a file that has none.
const NO_PAGE: u16 = 65535;

#[derive(Clone, Copy)]
pub struct Entry {
    pub file: u8,
    pub flags: u8,
    pub last: u16,
    pub first: u32,
}

// What stands at a place of the log: its end, a batch of so many entries, or neither. A Result<Option<usize>, _> would be
// no plainer: its one reader matches all three, and gives the case that `?` would hand on as an item.
#[derive(Clone, Copy)]
enum Batch {
    End,
    Entries(usize),
    Bad,
}

// The eight files as entries say: last page, first_seq, flags. An array for each field and no array of structs, since
// theorems speak of each field's list: owners' `val_in`, volume's `load_from`, transact's `files_of`.
#[derive(Clone, Copy)]
pub struct Files {
    pub last: [u16; 8],
    pub first: [u32; 8],
    pub flags: [u8; 8],
}

// The batches of a log in order: the bytes of each one's entries, or None for a bad one, behind which nothing is read.
#[derive(Drop)]
struct Batches<'a> {
    rest: &'a [u8],
}

impl<'a> Iterator for Batches<'a> {
    type Item = Option<&'a [u8]>;

    ghost next_gives = { FirstBatch };

    ghost remaining = { λ s. at_most (length s.rest.now) };

    #[tactic(auto, using(crate::proofs::Laws::batch_room, crate::proofs::Laws::bad_room), unfolding(runs::specs::Runs::part))]
    fn next(&mut self) -> Option<Option<&'a [u8]>> {
        match batch_at(self.rest) {
            Batch::End => None,
            Batch::Bad => {
                self.rest = &[];
                Some(None)
            }
            Batch::Entries(n) => {
                let (batch, rest) = self.rest.split_at(PAIR_SIZE + ENTRY_SIZE * n);
                self.rest = rest;
                Some(Some(&batch[PAIR_SIZE..]))
            }
        }
    }
}

impl Entry {
    // Bytes that are not there count as 0.
    #[tactic(auto, unfolding(crate::specs::Log::entry_of))]
    fn from_bytes(bs: &[u8]) -> Entry
        ensures { result ≡ entry_of bs.now }
    {
        Entry {
            file: runs::byte_at(bs, 0),
            flags: runs::byte_at(bs, 1),
            last: runs::u16_at(bs, 2),
            first: runs::u32_at(bs, 4),
        }
    }

    fn to_bytes(self) -> [u8; 8]
        ensures { result ≡ entry_bytes self }
    {
        let [l0, l1] = self.last.to_le_bytes();
        let [f0, f1, f2, f3] = self.first.to_le_bytes();
        [self.file, self.flags, l0, l1, f0, f1, f2, f3]
    }

    // Whether mount takes it.
    #[tactic(auto, unfolding(crate::specs::Log::sound))]
    fn is_sound(self, count: usize) -> bool
        ensures { result ≡ sound count self }
    {
        let reachable = if self.last == NO_PAGE {
            self.first == 0
        } else {
            usize::from(self.last) < count
        };
        self.file < 8 && reachable
    }
}

impl Files {
    // Eight files without pages.
    const NONE: Files = Files {
        last: [NO_PAGE; 8],
        first: [0; 8],
        flags: [0; 8],
    };

    // With the entry in the place of its file's, if mount takes it.
    #[tactic(auto, unfolding(crate::specs::Log::put, crate::specs::Log::sound))]
    fn with(mut self, entry: Entry, count: usize) -> Option<Files>
        ensures { result ≡ taken (add count (good self) entry) }
    {
        if !entry.is_sound(count) {
            return None;
        }
        let i = usize::from(entry.file);
        self.last[i] = entry.last;
        self.first[i] = entry.first;
        self.flags[i] = entry.flags;
        Some(self)
    }

    // With all entries of a batch, in order.
    #[tactic(auto, using(crate::proofs::Laws::entry_first, crate::proofs::Laws::entry_spoiled))]
    fn with_batch(mut self, batch: &[u8], count: usize) -> Option<Files>
        ensures { result ≡ taken (adds count (good self) (entries (length batch.now / entry_size) batch.now)) }
    {
        for entry in batch.chunks_exact(ENTRY_SIZE) {
            self = self.with(Entry::from_bytes(entry), count)?;
        }
        Some(self)
    }

    fn entry(&self, i: usize) -> Entry
        requires { i < 8 }
        ensures { result ≡ entry_for self.now i }
    {
        Entry {
            file: i as u8,
            flags: self.flags[i],
            last: self.last[i],
            first: self.first[i],
        }
    }

    // The bytes of the marked files' entries, in id order.
    #[tactic(auto, using(crate::proofs::Runs::below_none, crate::proofs::Runs::below_more, crate::proofs::Runs::below_same, crate::proofs::Runs::below_all))]
    fn marked_bytes(&self, marks: [bool; 8]) -> ArrayVec<u8, 64>
        ensures { result.items ≡ entries_bytes (chosen self.now marks) }
    {
        let mut bytes = ArrayVec::new();
        for i in 0..8 {
            if marks[i] {
                bytes
                    .try_extend_from_slice(&self.entry(i).to_bytes())
                    .unwrap();
            }
        }
        bytes
    }
}

// ---- reading

#[tactic(auto, unfolding(crate::specs::Log::good_pair))]
fn pair_good(n: u16, m: u16) -> bool
    ensures { result ≡ good_pair n m }
{
    m == !n && (1..=8).contains(&n)
}

#[tactic(auto, unfolding(crate::specs::Log::batch_at, crate::specs::Log::batch_of))]
fn batch_at(bs: &[u8]) -> Batch
    ensures { result ≡ batch_at bs.now }
{
    if bs.len() < PAIR_SIZE || runs::u32_at(bs, 0) == 0xffff_ffff {
        return Batch::End;
    }
    let n = runs::u16_at(bs, 0);
    let count = usize::from(n);
    if pair_good(n, runs::u16_at(bs, 2)) && PAIR_SIZE + ENTRY_SIZE * count <= bs.len() {
        Batch::Entries(count)
    } else {
        Batch::Bad
    }
}

#[tactic(auto, unfolding(crate::specs::Log::area_of))]
fn area(image: &[u8], p: usize) -> &[u8]
    ensures { result.now ≡ area_of image.now p }
{
    page::area_at(image, p, LOG_START, LOG_SIZE)
}

// The batches of the log of page p.
fn batches_of(image: &[u8], p: usize) -> Batches<'_>
    ensures { result.rest.now ≡ area_of image.now p }
{
    Batches {
        rest: area(image, p),
    }
}

// Where the log of page p ends, counted from its beginning, if it can be read.
#[tactic(auto, using(crate::proofs::Laws::end_first, crate::proofs::Laws::first_room, crate::proofs::Laws::end_end, crate::proofs::Laws::end_bad), unfolding(crate::specs::Log::log_end))]
pub fn log_end(image: &[u8], p: usize) -> Option<usize>
    ensures { result ≡ log_end image.now p }
{
    let mut end = 0;
    for batch in batches_of(image, p) {
        end += PAIR_SIZE + batch?.len();
    }
    Some(end)
}

// Whether the page is all 0xFF from there on.
#[tactic(auto, unfolding(crate::specs::Log::rest_erased))]
pub fn rest_erased(image: &[u8], p: usize, end: usize) -> bool
    ensures { result ≡ rest_erased image.now p end }
{
    let bs = area(image, p);
    runs::all_erased(&bs[end.min(bs.len())..])
}

// Whether a batch of n entries fits there.
#[tactic(auto, unfolding(crate::specs::Log::fits))]
pub fn fits(end: usize, n: usize) -> bool
    ensures { result ≡ fits end n }
{
    end <= LOG_SIZE && n <= LOG_SIZE && LOG_START + (end + (PAIR_SIZE + ENTRY_SIZE * n)) <= 256
}

// ---- replay

// The files that the log of page p leaves, for an image of count pages, if it reads and mount takes every entry.
#[tactic(auto, using(crate::proofs::Laws::replay_first, crate::proofs::Laws::replay_spoiled, crate::proofs::Laws::replay_end, crate::proofs::Laws::replay_bad), unfolding(crate::specs::Log::replay_of))]
pub fn replay_at(image: &[u8], p: usize, count: usize) -> Option<Files>
    ensures { result ≡ taken (replay_of count image.now p) }
{
    let mut files = Files::NONE;
    for batch in batches_of(image, p) {
        files = files.with_batch(batch?, count)?;
    }
    Some(files)
}

// ---- the bytes of a batch

fn pair_bytes(n: u16) -> [u8; 4]
    ensures { result ≡ pair_bytes n }
{
    let [n0, n1] = n.to_le_bytes();
    let [m0, m1] = (!n).to_le_bytes();
    [n0, n1, m0, m1]
}

// How many files are marked.
#[tactic(auto, using(crate::proofs::Runs::marked_count))]
pub fn count_marked(marks: [bool; 8]) -> usize
    ensures { result ≡ marked marks }
{
    marks.iter().filter(|marked| **marked).count()
}

// ---- stores

// Appends a batch of the marked files, in id order, where the log ends: entries, then the count pair.
#[tactic(auto, using(crate::proofs::Runs::stores_none, crate::proofs::Runs::stores_some, crate::proofs::Runs::stores_past))]
pub fn append_batch(image: &mut [u8], p: usize, end: usize, f: Files, marks: [bool; 8])
    ensures { image.new ≡ ran image.old (batch_stores p end (chosen f marks)) }
{
    let entries = f.marked_bytes(marks);
    if entries.is_empty() || 256 < end {
        return;
    }
    let n = entries.len() / ENTRY_SIZE;
    page::program(image, p, LOG_START + (end + PAIR_SIZE), &entries);
    page::program(image, p, LOG_START + end, &pair_bytes(n as u16));
}

// Makes p a metadata page with the marked files: erase, entries, count pair, page header last.
#[tactic(auto, using(page::proofs::Laws::ran_append), unfolding(crate::specs::Batch::new_meta_stores))]
pub fn store_new_meta(image: &mut [u8], p: usize, m: page::MetaHeader, f: Files, marks: [bool; 8])
    ensures { image.new ≡ ran image.old (new_meta_stores p m (chosen f marks)) }
{
    page::erase(image, p);
    append_batch(image, p, 0, f, marks);
    page::store_meta(image, p, m);
}
