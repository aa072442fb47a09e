// A read: one page after the other, each located, opened, and copied from up to its end.
ghost use Rattle.std.specs.Prelude.{◌≡◌, ◌+◌, ◌<◌, length};
ghost use Rattle.reader.specs.Read.{bytes_from, after_read, read_in};
ghost use Rattle.reader.specs.Turn.{turn, turned, all_of};

use crate::Reader;
use state::types::{FileRecord, Refusal};

// The bytes of one page go into the front of out: how many.
#[tactic(auto, using(crate::proofs::Bytes::turn_shut, crate::proofs::Bytes::turn_placed))]
fn read_page(image: &[u8], count: usize, f: &FileRecord, seq: u32, out: &mut [u8]) -> Option<usize>
    ensures { turn result out.new ≡ turned image.now count f.now seq out.old }
{
    let opened = crate::pages::open_at(image, count, f, seq)?;
    let n = out.len().min(opened.left as usize);
    let bytes = page::payload_at(image, opened.page as usize, opened.offset as usize, n);
    runs::place(out, 0, bytes);
    Some(n)
}

// All of out, page by page. No `for` fits: each page says where the next one starts.
fn read_bytes(image: &[u8], count: usize, f: &FileRecord, seq: u32, out: &mut [u8]) -> Option<()>
    requires { seq + length out.old < 4294967296 }
    ensures { all_of result out.new ≡ bytes_from image.now count f.now (length out.old) seq (length out.old) }
{
    let mut done = 0;
    while done < out.len() {
        done += read_page(image, count, f, seq + (done as u32), &mut out[done..])?;
    }
    Some(())
}

// The output of a Damaged read is all zero.
#[tactic(auto, using(crate::proofs::Exits::read_none, crate::proofs::Exits::read_refused_in, crate::proofs::Bytes::read_whole, crate::proofs::Bytes::read_zero, crate::proofs::Bytes::read_lost))]
pub fn read_in(
    image: &[u8],
    count: usize,
    f: &FileRecord,
    reader: &mut Reader,
    out: &mut [u8],
) -> Result<(), Refusal>
    ensures { after_read result reader.new out.new ≡ read_in image.now count f.now reader.old out.old }
{
    if out.is_empty() {
        return Ok(());
    }
    let end = crate::pages::behind(f, reader.seq, out.len())?;
    if state::values::in_shape(f, count) && read_bytes(image, count, f, reader.seq, out).is_some() {
        reader.seq = end;
        return Ok(());
    }
    out.fill(0);
    Err(Refusal::Damaged)
}
