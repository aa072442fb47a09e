// Sequence numbers and the skip list's arithmetic. Every public function answers for every input: a number, or the refusal.
ghost use Rattle.std.specs.Prelude.{◌≡◌, min, ◌-◌, ◌<◌};
ghost use Rattle.seq.specs.Seq.{TopBit, zeros, level, zeros_says, index_says, jump_says, add_says, sub_says, reply};

// Why there is no such number: the two ends are no range, or it would pass the greatest.
#[derive(Clone, Copy, Debug, PartialEq, Eq)]
pub enum SeqError {
    Range,
    SeqEnd,
}

// The greatest sequence number.
pub const SEQ_LIMIT: u64 = 4294967294;

pub const SKIPLIST_LEN: usize = 9;

pub const SKIPLIST_SHIFT: u32 = 7;

// By link index: what the multiples that link is for are multiples of.
pub const SPANS: [u32; 9] = [1, 256, 512, 1024, 2048, 4096, 8192, 16384, 32768];

// The place of the highest set bit.
fn top_bit(x: u32) -> u32
    requires { 0 < x }
    ensures { TopBit x result }
{
    x.ilog2()
}

fn zeros_between(a: u32, b: u32) -> u32
    requires { a < b }
    ensures { result ≡ zeros a b }
{
    if a == 0 {
        return 32;
    }
    top_bit((a - 1) ^ (b - 1))
}

// The most trailing zeros that a number from a up to, not including, b has: 32 where 0 is among them.
pub fn max_trailing_zeros_between(a: u32, b: u32) -> Result<u32, SeqError>
    ensures { reply result ≡ zeros_says a b }
{
    if b <= a {
        return Err(SeqError::Range);
    }
    Ok(zeros_between(a, b))
}

// The link of so many trailing zeros: 7 less, not below 0, and at most 8.
fn link_of(bits: u32) -> u32
    ensures { result ≡ min 8 (bits - 7) }
{
    bits.saturating_sub(SKIPLIST_SHIFT).min(8)
}

pub fn skiplist_index(left: u32, right: u32) -> Result<u32, SeqError>
    ensures { reply result ≡ index_says left right }
{
    Ok(link_of(max_trailing_zeros_between(left, right)?))
}

// The same with 0 for an empty range, for callers that have tested or that document 01 gives the 0.
pub fn link_index(left: u32, right: u32) -> usize
    ensures { result ≡ level left right }
{
    skiplist_index(left, right).unwrap_or(0) as usize
}

// The number that a jump from a page that starts at curr, by link index, leads to.
pub fn skiplist_seq(curr: u32, index: usize) -> Result<u32, SeqError>
    ensures { reply result ≡ jump_says curr index }
{
    if curr == 0 {
        return Err(SeqError::Range);
    }
    if SKIPLIST_LEN <= index {
        return Err(SeqError::Range);
    }
    let span = SPANS[index];
    Ok((curr - 1) / span * span)
}

// Seq::add.
pub fn seq_add(seq: u32, offs: usize) -> Result<u32, SeqError>
    ensures { reply result ≡ add_says seq offs }
{
    let sum = u64::from(seq).saturating_add(offs as u64);
    if SEQ_LIMIT < sum {
        return Err(SeqError::SeqEnd);
    }
    Ok(sum as u32)
}

// Seq::sub.
pub fn seq_sub(seq: u32, other: u32) -> Result<u32, SeqError>
    ensures { reply result ≡ sub_says seq other }
{
    if seq < other {
        return Err(SeqError::Range);
    }
    Ok(seq - other)
}
