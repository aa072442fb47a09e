// Opening a writer.
#![tactic(auto, unfolding(state::specs::Values::with_cursor, state::specs::Values::with_writer, state::specs::Values::no_writer, crate::specs::Open::ready_writer, crate::specs::Open::copy_writer, crate::specs::Open::open_last, crate::specs::Open::open_in, crate::specs::Open::open_writer))]

ghost use Rattle.std.specs.Prelude.{◌≡◌, ◌+◌, ◌*◌, ◌≤◌, length};
ghost use Rattle.map.specs.Map.{alloc_of};
ghost use Rattle.chain.specs.Steps.{read_at, back_rule, step};
ghost use Rattle.chain.specs.Files.{last_of};
ghost use Rattle.state.specs.World.{before, yields, promised};
ghost use Rattle.writer.specs.Open.{ready_writer, no_page, copy_writer, copied_to, open_last, open_in, open_writer};
ghost use Rattle.writer.specs.Inner.{behind, page_before, Leaves, Sized, Stands};

use chain::{PagePointer, Step};
use state::types::{FileRecord, Refusal, State, Table, Writer};

// A writer behind page q, with nothing staged.
fn writer_behind(file: u8, seq: u32, q: &PagePointer) -> Writer
    ensures { result ≡ behind file seq q.now }
{
    Writer {
        active: true,
        file,
        seq,
        previous: q.page_id,
        previous_header: q.header,
        boundary: 0,
        ended: true,
        ..state::values::no_writer()
    }
}

// Nothing staged: the file's last page is the page before.
fn ready_writer(file: u8, f: &FileRecord) -> Writer
    ensures { result ≡ ready_writer file f.now }
{
    writer_behind(file, f.last_seq, &chain::last_of(f))
}

fn no_page() -> PagePointer
    ensures { result ≡ no_page }
{
    PagePointer {
        page_id: seq::ids::NONE,
        header: state::values::no_header(),
    }
}

// The last page's bytes are staged on page p, behind page q.
#[tactic(auto, using(crate::proofs::Small::payload_part), unfolding(crate::specs::Open::copy_writer))]
fn copy_writer(image: &[u8], file: u8, f: &FileRecord, q: &PagePointer, p: u16) -> Writer
    requires { (f.now.last_page * 256 + 256 ≤ length image.now) × (f.now.header.length ≤ 224) }
    ensures { result ≡ copy_writer image.now file f.now q.now p }
{
    let h = &f.header;
    let mut w = Writer {
        page: p,
        copied: f.last_page,
        boundary: h.record_boundary,
        length: h.length,
        ..writer_behind(file, h.seq, q)
    };
    let payload = page::payload_at(image, usize::from(f.last_page), 0, usize::from(h.length));
    runs::place(&mut w.staged, 0, payload);
    w
}

// The page before the copied one is mount's next step from the old one.
fn page_before(image: &[u8], count: usize, f: &FileRecord) -> Result<PagePointer, Refusal>
    ensures { result ≡ page_before (step (back_rule count f.now.first_seq) (read_at image.now) (last_of f.now)) }
{
    match chain::prev(image, count, &chain::last_of(f), f.first_seq) {
        Step::Stays => Ok(no_page()),
        Step::Reaches(q) => Ok(q),
        Step::Breaks => Err(Refusal::Damaged),
    }
}

// The copy's page is allocated at once; nothing is stored yet.
fn copied_to(
    image: &[u8],
    map: &mut [u8],
    state: &mut State,
    file: u8,
    f: &FileRecord,
    q: &PagePointer,
) -> Result<(), Refusal>
    requires { Stands image.now state.old f.now }
    ensures { Leaves (λ w. copied_to w file f.now q.now (alloc_of map.old state.old.page_count state.old.cursor)) image.now map.old state.old result map.new state.new }
{
    let Some(p) = crate::staging::allocate(map, state) else {
        return Err(Refusal::NoRoom);
    };
    state.writer = copy_writer(image, file, f, q, p);
    Ok(())
}

// A last page of 224 bytes is kept, a shorter one is copied.
#[tactic(auto, using(crate::proofs::Opens::shaped_stands), unfolding(crate::specs::Open::open_last, crate::specs::Open::ready_writer, state::specs::Values::with_writer))]
fn open_last(
    image: &[u8],
    map: &mut [u8],
    state: &mut State,
    file: u8,
    f: &FileRecord,
) -> Result<(), Refusal>
    requires { Sized image.now state.old }
    ensures { Leaves (λ w. open_last w file f.now) image.now map.old state.old result map.new state.new }
{
    let count = usize::from(state.page_count);
    let full = usize::from(f.header.length) == page::PAYLOAD_SIZE;
    if !full && crate::staging::too_few(map, state.page_count, 1) {
        return Err(Refusal::NoRoom);
    }
    if !state::values::in_shape(f, count) {
        return Err(Refusal::Damaged);
    }
    if full {
        state.writer = ready_writer(file, f);
        return Ok(());
    }
    let q = page_before(image, count, f)?;
    copied_to(image, map, state, file, f, &q)
}

// By the file's record.
fn open_in(
    image: &[u8],
    map: &mut [u8],
    state: &mut State,
    file: u8,
    f: &FileRecord,
) -> Result<(), Refusal>
    requires { Sized image.now state.old }
    ensures { Leaves (λ w. open_in w file f.now) image.now map.old state.old result map.new state.new }
{
    if seq::numbers::SEQ_LIMIT < u64::from(f.last_seq) {
        return Err(Refusal::SeqEnd);
    }
    if f.is_empty() {
        state.writer = ready_writer(file, f);
        return Ok(());
    }
    open_last(image, map, state, file, f)
}

#[tactic(auto, using(state::proofs::Laws::checks_pass, crate::proofs::Opens::passed_sized), unfolding(crate::specs::Open::open_writer))]
pub fn open(
    image: &[u8],
    map: &mut [u8],
    table: &Table,
    state: &mut State,
    file: u8,
) -> Result<(), Refusal>
    ensures { yields result image.now map.new table.now state.new ≡ promised (λ w. open_writer w file) (before image.now map.old table.now state.old) }
{
    state::checks::check(image.len(), map.len(), state, state.writer.active, file)?;
    open_in(image, map, state, file, &table.files[usize::from(file)])
}
