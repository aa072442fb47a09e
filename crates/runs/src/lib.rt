// Runs of bytes: filled, copied, looked through, and read as little-endian fields. Every function is total: a byte past the
// end counts as 0, and a run that would pass the end is not stored.
#![tactic(auto)]

ghost use Rattle.std.specs.Prelude.{◌≡◌, ◌<◌, length, get_or, replicate};
ghost use Rattle.runs.specs.Runs.{le16, le32, part_of, placed, all_erased};

// Every byte of d becomes v.
pub fn fill(d: &mut [u8], v: u8)
    ensures { d.new ≡ replicate (length d.old) v }
{
    d.fill(v);
}

// d becomes s. No `copy_from_slice`: that calls memmove where the length is not known, and the archive for C needs no such name.
#[tactic(auto, using(crate::proofs::Laws::copy_more, crate::proofs::Laws::copy_all))]
fn copy(d: &mut [u8], s: &[u8])
    requires { length d.old ≡ length s.now }
    ensures { d.new ≡ s.now }
{
    for (i, byte) in d.iter_mut().enumerate() {
        *byte = s[i];
    }
}

// The run in the place of d's bytes from at on. Nothing changes where it passes the end.
pub fn place(d: &mut [u8], at: usize, run: &[u8])
    ensures { d.new ≡ placed d.old at run.now }
{
    if at <= d.len() && run.len() <= d.len() - at {
        copy(&mut d[at..at + run.len()], run);
    }
}

// The n bytes of s from at on, a part of s, or none of them where they pass its end.
pub fn part_of(s: &[u8], at: usize, n: usize) -> &[u8]
    ensures { result.now ≡ part_of s.now at n }
{
    let Some(rest) = s.get(at..) else { return &[] };
    rest.get(..n).unwrap_or(&[])
}

pub fn byte_at(s: &[u8], at: usize) -> u8
    ensures { (result ≡ get_or s.now at 0) × (result < 256) }
{
    s.get(at).copied().unwrap_or(0)
}

pub fn u16_at(s: &[u8], at: usize) -> u16
    ensures { result ≡ le16 s.now at }
{
    let Some(rest) = s.get(at..) else { return 0 };
    match rest {
        [low, high, ..] => u16::from_le_bytes([*low, *high]),
        [low] => u16::from(*low),
        [] => 0,
    }
}

// Made of two, so that one place says what the bytes past the end count as.
pub fn u32_at(s: &[u8], at: usize) -> u32
    ensures { result ≡ le32 s.now at }
{
    let Some(rest) = s.get(at..) else { return 0 };
    u32::from(u16_at(rest, 0)) + u32::from(u16_at(rest, 2)) * 65536
}

// Whether all is 0xFF.
pub fn all_erased(s: &[u8]) -> bool
    ensures { result ≡ all_erased s.now }
{
    s.iter().all(|byte| *byte == 255)
}
