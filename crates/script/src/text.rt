// Parts of a text, and pieces put behind each other into a lent buffer.
ghost use Rattle.std.specs.Prelude.{◌≡◌, ◌+◌, ◌*◌, ◌<◌, ◌≤◌, ◌++◌, [], List, ℕ, Option, length, OnOk};
ghost use Rattle.std.specs.Option.{option_copied};
ghost use Rattle.std.specs.Iterator.{at_most};
ghost use Rattle.io.specs.Digits.{IsDigitCount};
ghost use Rattle.runs.specs.Runs.{placed, splice};
ghost use Rattle.script.specs.Text.{until, rest, words, words_of, next_word, behind, spot, place, held, cleared, put, hex_digit, hex_digits};
ghost use Rattle.script.specs.Say.{decimal};

use std::marker::Model;

// A text up to its first b, and what is behind that, if there is one.
pub fn cut(s: &[u8], b: u8) -> (&[u8], Option<&[u8]>)
    ensures { (result.0.now ≡ until b s.now) × (option_copied result.1 ≡ rest b s.now) }
{
    match s.iter().position(|x| *x == b) {
        Some(i) => (&s[..i], Some(&s[i + 1..])),
        None => (s, None),
    }
}

// The words of a text that are left, separated by one space.
#[derive(Drop)]
pub struct Words<'a> {
    rest: Option<&'a [u8]>,
}

impl<'a> Model for Words<'a> {
    ghost Value = { List (List ℕ) };

    ghost view = { λ w. words_of (option_copied w.rest) };
}

impl<'a> Words<'a> {
    pub fn new(text: &'a [u8]) -> Words<'a>
        ensures { result ≡ words text.now }
    {
        Words { rest: Some(text) }
    }

    // Takes all that are left, if there is one, as the text that they are: nobody looks for their ends.
    pub fn rest(&mut self) -> Option<&'a [u8]>
        ensures { (words_of (option_copied result) ≡ self.old) × (self.new ≡ []) }
    {
        self.rest.take()
    }
}

impl<'a> Iterator for Words<'a> {
    type Item = &'a [u8];

    ghost next_gives = { λ s r t. next_word s (option_copied r) t };

    ghost remaining = { λ s. at_most (length s) };

    fn next(&mut self) -> Option<&'a [u8]> {
        let (word, rest) = cut(self.rest?, b' ');
        self.rest = rest;
        Some(word)
    }
}

// The output buffer, and where in it the next text is put. It has no model: one hides the loan, and the lender would not know what the
// buffer ends as.
#[derive(Drop)]
pub struct Output<'a> {
    buffer: &'a mut [u8],
    at: usize,
}

// Where what is put at an index ends: the buffer's end where it does not fit.
fn end_of(room: usize, at: usize, n: usize) -> usize
    ensures { result ≡ behind room at n }
{
    if at <= room && n <= room - at {
        at + n
    } else {
        room
    }
}

fn digit(n: u8) -> u8
    requires { n < 16 }
    ensures { result ≡ hex_digit n }
{
    if n < 10 { b'0' + n } else { b'a' - 10 + n }
}

// Bytes, each as two digits in hex, from an index on. By index: no law of the library speaks of `chunks_exact_mut` zipped with a run.
fn write_hex(out: &mut [u8], at: usize, bytes: &[u8])
    requires { at + 2 * length bytes.now ≤ length out.old }
    ensures { out.new ≡ splice out.old at (hex_digits bytes.now) }
{
    for (i, b) in bytes.iter().enumerate() {
        out[at + 2 * i] = digit(*b / 16);
        out[at + 2 * i + 1] = digit(*b % 16);
    }
}

// The same where it fits: where it ends.
fn hex_at(out: &mut [u8], at: usize, bytes: &[u8]) -> usize
    ensures text { out.new ≡ placed out.old at (hex_digits bytes.now) }
    ensures end { result ≡ behind (length out.old) at (length (hex_digits bytes.now)) }
{
    let room = out.len();
    if room < at {
        return room;
    }
    if (room - at) / 2 < bytes.len() {
        return room;
    }
    write_hex(out, at, bytes);
    at + 2 * bytes.len()
}

impl<'a> Output<'a> {
    pub fn new(buffer: &'a mut [u8], at: usize) -> Output<'a>
        ensures { result ≡ spot buffer.entry at }
    {
        Output { buffer, at }
    }

    pub fn at(&self) -> usize
        ensures { result ≡ place self.now }
    {
        self.at
    }

    // What is held, where the buffer has it whole.
    pub fn held(&self) -> &[u8]
        ensures { result.now ≡ held self.now }
    {
        runs::part_of(&*self.buffer, 0, self.at)
    }

    // Nothing is held from then on.
    pub fn clear(&mut self)
        ensures { self.new ≡ cleared self.old }
    {
        self.at = 0;
    }

    // Puts a text behind what is held. Where it does not fit, nothing is written and the buffer's end is held.
    pub fn put(&mut self, text: &[u8])
        ensures { self.new ≡ put self.old text.now }
    {
        let buffer = &mut *self.buffer;
        runs::place(buffer, self.at, text);
        self.at = end_of(buffer.len(), self.at, text.len());
    }

    // The same with bytes, each as two digits in hex.
    pub fn put_hex(&mut self, bytes: &[u8])
        ensures { self.new ≡ put self.old (hex_digits bytes.now) }
    {
        let buffer = &mut *self.buffer;
        self.at = hex_at(buffer, self.at, bytes);
    }

    // The same with a number in decimal.
    pub fn put_number(&mut self, n: u64)
        ensures { self.new ≡ put self.old (decimal n) }
    {
        let mut digits = [0u8; 20];
        let k = io::decimal(n, &mut digits);
        self.put(&digits[..k]);
    }
}
