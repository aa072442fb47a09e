// Numbers, runs of bytes and sums, as the protocol writes them.
ghost use Rattle.std.specs.Prelude.{◌≡◌, true, ◌/◌, ◌%◌, ◌≤◌, ◌<◌, length};
ghost use Rattle.runs.specs.Runs.{placed};
ghost use Rattle.script.specs.Bytes.{more, zero_in_front, number_of, hex_value, all_hex, digit_of, is_run, bytes_of, run_of, decoded, ramp, adler};

// A number with one digit more.
fn more(value: u32, digit: u8) -> Option<u32>
    ensures { result ≡ more value digit }
{
    if !digit.is_ascii_digit() {
        return None;
    }
    u32::try_from(u64::from(value) * 10 + u64::from(digit - b'0')).ok()
}

fn zero_in_front(word: &[u8]) -> bool
    ensures { result ≡ zero_in_front word.now }
{
    2 <= word.len() && word[0] == b'0'
}

// A number is digits alone, without a zero in front (0 itself aside), and fits 32 bits.
pub fn number_of(word: &[u8]) -> Option<u32>
    ensures { result ≡ number_of word.now }
{
    if word.is_empty() || zero_in_front(word) {
        return None;
    }
    let mut value = 0;
    for digit in word {
        value = more(value, *digit)?;
    }
    Some(value)
}

// The kit's `hex` reads digits in upper case too, which are none of the protocol.
fn hex_value(d: u8) -> Option<u8>
    ensures { result ≡ hex_value d }
{
    match d {
        b'0'..=b'9' => Some(d - b'0'),
        b'a'..=b'f' => Some(d - b'a' + 10),
        _ => None,
    }
}

// The value of a digit that was looked through.
fn digit_of(d: u8) -> u8
    ensures { (result ≡ digit_of d) × (result < 16) }
{
    hex_value(d).unwrap_or(0)
}

fn all_hex(word: &[u8]) -> bool
    ensures { result ≡ all_hex word.now }
{
    word.iter().all(|d| hex_value(*d).is_some())
}

// Whether a word stands for bytes: an even number of digits, not none, and no more than there is room for.
fn is_run(room: usize, word: &[u8]) -> bool
    ensures { result ≡ is_run room word.now }
{
    !word.is_empty() && word.len() % 2 == 0 && word.len() / 2 <= room && all_hex(word)
}

// The bytes of digits that were looked through, from the buffer's start on. By index, as `write_hex`.
fn decode(word: &[u8], out: &mut [u8])
    requires { (length word.now % 2 ≡ 0) × (length word.now / 2 ≤ length out.old) × (all_hex word.now ≡ true) }
    ensures { out.new ≡ placed out.old 0 (bytes_of word.now) }
{
    for o in 0..word.len() / 2 {
        out[o] = digit_of(word[2 * o]) * 16 + digit_of(word[2 * o + 1]);
    }
}

// The bytes that a word in hex stands for, from the buffer's start on: how many they are. Nothing changes where it is none.
pub fn hex_of(word: &[u8], out: &mut [u8]) -> Option<usize>
    ensures { (result ≡ run_of (length out.old) word.now)
        × (out.new ≡ decoded out.old word.now) }
{
    if !is_run(out.len(), word) {
        return None;
    }
    decode(word, out);
    Some(word.len() / 2)
}

// Fills the buffer: the first byte is start mod 251, and each the next mod 251.
pub fn fill(out: &mut [u8], start: u32)
    ensures { out.new ≡ ramp (length out.old) (start % 251) }
{
    let mut next = (start % 251) as u8;
    for byte in out {
        *byte = next;
        next = if next < 250 { next + 1 } else { 0 };
    }
}

pub fn adler32(s: &[u8]) -> u32
    ensures { result ≡ adler 1 0 s.now }
{
    let mut a: u32 = 1;
    let mut b: u32 = 0;
    for byte in s {
        a = (a + u32::from(*byte)) % 65521;
        b = (b + a) % 65521;
    }
    b * 65536 + a
}
