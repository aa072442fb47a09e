// The page of a number: located, and opened. The image and its count of pages travel as two parameters, as in chain: each call
// would have to make a struct of its image and its state's page_count, and a clause would say `pages.now.image`.
#![tactic(auto, unfolding(crate::specs::Turn::behind, crate::specs::Locate::locate_in, crate::specs::Skip::landed, crate::specs::Skip::skip_in))]

ghost use Rattle.std.specs.Prelude.{◌≡◌, ◌+◌, IfOk};
ghost use Rattle.reader.specs.Locate.{locate_in};
ghost use Rattle.reader.specs.Read.{open_at};
ghost use Rattle.reader.specs.Skip.{landed, skip_in};
ghost use Rattle.reader.specs.Turn.{opening, behind};

use crate::Located;
use state::types::{FileRecord, Refusal};

// An opened page, for a number that it holds: where the number's byte stands in the payload, and how many bytes there are from
// it up to the end.
#[derive(Clone, Copy)]
pub struct Opening {
    pub page: u16,
    pub offset: u32,
    pub left: u32,
}

// The number behind n of the file's numbers from seq on. Locate, read and skip all check so, in this order; locate asks for one
// number, and one is never Short.
pub fn behind(f: &FileRecord, seq: u32, n: usize) -> Result<u32, Refusal>
    ensures answer { result ≡ behind f.now seq n }
    ensures end { IfOk result (λ end. end ≡ seq + n) }
{
    if seq < f.first_seq {
        return Err(Refusal::Gone);
    }
    if f.last_seq <= seq {
        return Err(Refusal::Eof);
    }
    if ((f.last_seq - seq) as usize) < n {
        return Err(Refusal::Short);
    }
    Ok(seq + (n as u32))
}

// The located page of a number, opened: its header is read from the image, and it holds the number.
#[tactic(auto, using(crate::proofs::Exits::open_unread, crate::proofs::Exits::open_below, crate::proofs::Exits::open_past, crate::proofs::Exits::open_held), unfolding(crate::specs::Read::open_at))]
pub fn open_at(image: &[u8], count: usize, f: &FileRecord, seq: u32) -> Option<Opening>
    ensures { result ≡ opening seq (open_at image.now count f.now seq) }
{
    let found = chain::prev_seq(image, count, chain::last_of(f), seq)?;
    let page = found.page.page_id;
    let header = page::header_at(image, page as usize)?;
    let offset = seq.checked_sub(header.seq)?;
    let length = u32::from(header.length);
    if length <= offset {
        return None;
    }
    Some(Opening {
        page,
        offset,
        left: length - offset,
    })
}

pub fn locate_in(image: &[u8], count: usize, f: &FileRecord, seq: u32) -> Result<Located, Refusal>
    ensures { result ≡ locate_in image.now count f.now seq }
{
    behind(f, seq, 1)?;
    if !state::values::in_shape(f, count) {
        return Err(Refusal::Damaged);
    }
    let found = chain::prev_seq(image, count, chain::last_of(f), seq).ok_or(Refusal::Damaged)?;
    Ok(Located {
        page: found.page.page_id,
        headers: found.count,
    })
}

// A reader comes to seq: below last_seq it opens the page there.
fn land(image: &[u8], count: usize, f: &FileRecord, seq: u32) -> Result<u32, Refusal>
    ensures { result ≡ landed image.now count f.now seq }
{
    if seq == f.last_seq
        || state::values::in_shape(f, count) && open_at(image, count, f, seq).is_some()
    {
        return Ok(seq);
    }
    Err(Refusal::Damaged)
}

pub fn skip_in(
    image: &[u8],
    count: usize,
    f: &FileRecord,
    seq: u32,
    len: usize,
) -> Result<u32, Refusal>
    ensures { result ≡ skip_in image.now count f.now seq len }
{
    if len == 0 {
        return Ok(seq);
    }
    let end = behind(f, seq, len)?;
    land(image, count, f, end)
}
