// The files of a table as the log's entries want them, and the stores of a commit.
ghost use Rattle.std.specs.Prelude.{◌≡◌, length, map, not};
ghost use Rattle.page.specs.Store.{ran};
ghost use Rattle.metalog.specs.Batch.{batch_stores, new_meta_stores};
ghost use Rattle.state.specs.Values.{is_empty};
ghost use Rattle.transact.specs.Commit.{files_of, dirty_files, live_files};

use metalog::Files;
use page::MetaHeader;
use state::types::Table;
use std::array;

// An array for each field, as the log takes them.
fn files_of(table: &Table) -> Files
    ensures { result ≡ files_of table.now }
{
    Files {
        last: array::from_fn(|i| table.files[i].last_page),
        first: array::from_fn(|i| table.files[i].first_seq),
        flags: array::from_fn(|i| table.files[i].flags),
    }
}

// Which files are dirty.
fn dirty_marks(table: &Table) -> [bool; 8]
    ensures { result ≡ map (λ f. f.dirty) table.now.files }
{
    array::from_fn(|i| table.files[i].dirty)
}

// Which files are not empty.
fn live_marks(table: &Table) -> [bool; 8]
    ensures { result ≡ map (λ f. not (is_empty f)) table.now.files }
{
    array::from_fn(|i| !table.files[i].is_empty())
}

// How many files are dirty.
#[tactic(auto, using(metalog::proofs::Runs::length_chosen))]
pub fn count_dirty(table: &Table) -> usize
    ensures { result ≡ length (dirty_files table.now) }
{
    metalog::count_marked(dirty_marks(table))
}

// Appends a batch of the dirty files where the log of page p ends.
pub fn append_dirty(image: &mut [u8], table: &Table, p: usize, end: usize)
    ensures { image.new ≡ ran image.old (batch_stores p end (dirty_files table.now)) }
{
    metalog::append_batch(image, p, end, files_of(table), dirty_marks(table));
}

// Makes p a metadata page with all files that are not empty.
pub fn store_live(image: &mut [u8], table: &Table, p: usize, m: MetaHeader)
    ensures { image.new ≡ ran image.old (new_meta_stores p m (live_files table.now)) }
{
    metalog::store_new_meta(image, p, m, files_of(table), live_marks(table));
}
