// The command of a line. Bytes that a command carries lie in the lent buffer, from its start on, and the command has their count.
ghost use Rattle.std.specs.Prelude.{◌≡◌};
ghost use Rattle.script.specs.Command.{numbers, plain, of_file, of_one, lend, of_bytes, of_file_and, of_two, of_read, of_three, of_numbers, shown_by, the_page, show_of, told, written, poked, filled_by, filled, named, command_of};

use crate::bytes;
use crate::text::Words;

// What a poke writes into.
#[derive(Clone, Copy)]
pub enum Buffer {
    Image,
    Map,
}

// The buffers, the lent lengths, and a fresh table and state.
#[derive(Clone, Copy)]
pub enum Setup {
    Lend(u32, u32),
    New(u32),
    Blank,
    Poke(Buffer, u32, usize),
}

#[derive(Clone, Copy)]
pub enum Volume {
    Format,
    Mount,
}

#[derive(Clone, Copy)]
pub enum Reading {
    Locate(u8, u32),
    Read(u8, u32, usize),
    Skip(u8, u32, usize),
}

#[derive(Clone, Copy)]
pub enum Searching {
    Search(u8),
    Left,
    Right,
}

#[derive(Clone, Copy)]
pub enum Writing {
    Open(u8),
    Write(usize),
    End,
    Finish,
    Discard,
}

#[derive(Clone, Copy)]
pub enum Files {
    Truncate(u8, usize),
    Rename(u8, u8),
    Flags(u8, u8),
    Commit,
}

#[derive(Clone, Copy)]
pub enum Helper {
    Zeros(u32, u32),
    Index(u32, u32),
    SpanSeq(u32, usize),
    Seed(u32),
}

#[derive(Clone, Copy)]
pub enum Show {
    State,
    Table,
    Map,
    Page(usize),
    Image,
}

#[derive(Clone, Copy)]
pub enum Command {
    // an empty line, or one that starts with #
    Nothing,
    Setup(Setup),
    Volume(Volume),
    Reading(Reading),
    Searching(Searching),
    Writing(Writing),
    Files(Files),
    Helper(Helper),
    Show(Show),
}

// The numbers behind a command's name.
#[derive(Clone, Copy)]
enum Numbers {
    Zero,
    One(u32),
    Two(u32, u32),
    Three(u32, u32, u32),
}

const LINE_MAX: usize = 65535;

const BYTES_MAX: u32 = 20000;

const IMAGE_MAX: u32 = 262656;

const MAP_MAX: u32 = 1026;

// The words that are left, where each is a number and they are no more than three.
#[tactic(auto, using(crate::proofs::Laws::words_first))]
fn numbers_of(words: &mut Words) -> Option<Numbers>
    ensures { result ≡ numbers words.old }
{
    let Some(word) = words.next() else {
        return Some(Numbers::Zero);
    };
    let a = bytes::number_of(word)?;
    let Some(word) = words.next() else {
        return Some(Numbers::One(a));
    };
    let b = bytes::number_of(word)?;
    let Some(word) = words.next() else {
        return Some(Numbers::Two(a, b));
    };
    let c = bytes::number_of(word)?;
    match words.rest() {
        Some(_) => None,
        None => Some(Numbers::Three(a, b, c)),
    }
}

// A command of one word.
fn plain(name: &[u8]) -> Option<Command>
    ensures { result ≡ plain name.now }
{
    Some(if name == b"blank".as_slice() {
        Command::Setup(Setup::Blank)
    } else if name == b"format".as_slice() {
        Command::Volume(Volume::Format)
    } else if name == b"mount".as_slice() {
        Command::Volume(Volume::Mount)
    } else if name == b"left".as_slice() {
        Command::Searching(Searching::Left)
    } else if name == b"right".as_slice() {
        Command::Searching(Searching::Right)
    } else if name == b"end".as_slice() {
        Command::Writing(Writing::End)
    } else if name == b"finish".as_slice() {
        Command::Writing(Writing::Finish)
    } else if name == b"discard".as_slice() {
        Command::Writing(Writing::Discard)
    } else if name == b"commit".as_slice() {
        Command::Files(Files::Commit)
    } else {
        return None;
    })
}

// One with a number that is a file.
fn of_file(name: &[u8], a: u32) -> Option<Command>
    ensures { result ≡ of_file name.now a }
{
    let file = u8::try_from(a).ok()?;
    Some(if name == b"search".as_slice() {
        Command::Searching(Searching::Search(file))
    } else if name == b"open".as_slice() {
        Command::Writing(Writing::Open(file))
    } else {
        return None;
    })
}

fn of_one(name: &[u8], a: u32) -> Option<Command>
    ensures { result ≡ of_one name.now a }
{
    if name == b"new".as_slice() {
        Some(Command::Setup(Setup::New(a)))
    } else if name == b"seed".as_slice() {
        Some(Command::Helper(Helper::Seed(a)))
    } else {
        of_file(name, a)
    }
}

fn lend(image: u32, map: u32) -> Option<Command>
    ensures { result ≡ lend image map }
{
    if IMAGE_MAX < image || MAP_MAX < map {
        return None;
    }
    Some(Command::Setup(Setup::Lend(image, map)))
}

// One with a file and another byte.
fn of_bytes(name: &[u8], file: u8, b: u32) -> Option<Command>
    ensures { result ≡ of_bytes name.now file b }
{
    let b = u8::try_from(b).ok()?;
    Some(Command::Files(if name == b"rename".as_slice() {
        Files::Rename(file, b)
    } else if name == b"flags".as_slice() {
        Files::Flags(file, b)
    } else {
        return None;
    }))
}

// One with two numbers of which the first is a file.
fn of_file_and(name: &[u8], a: u32, b: u32) -> Option<Command>
    ensures { result ≡ of_file_and name.now a b }
{
    let file = u8::try_from(a).ok()?;
    if name == b"locate".as_slice() {
        Some(Command::Reading(Reading::Locate(file, b)))
    } else if name == b"truncate".as_slice() {
        Some(Command::Files(Files::Truncate(file, b as usize)))
    } else {
        of_bytes(name, file, b)
    }
}

fn of_two(name: &[u8], a: u32, b: u32) -> Option<Command>
    ensures { result ≡ of_two name.now a b }
{
    if name == b"lend".as_slice() {
        lend(a, b)
    } else if name == b"mtz".as_slice() {
        Some(Command::Helper(Helper::Zeros(a, b)))
    } else if name == b"index".as_slice() {
        Some(Command::Helper(Helper::Index(a, b)))
    } else if name == b"spanseq".as_slice() {
        Some(Command::Helper(Helper::SpanSeq(a, b as usize)))
    } else {
        of_file_and(name, a, b)
    }
}

fn of_read(name: &[u8], file: u8, b: u32, n: u32) -> Option<Command>
    ensures { result ≡ of_read name.now file b n }
{
    if BYTES_MAX < n || name != b"read".as_slice() {
        return None;
    }
    Some(Command::Reading(Reading::Read(file, b, n as usize)))
}

fn of_three(name: &[u8], a: u32, b: u32, n: u32) -> Option<Command>
    ensures { result ≡ of_three name.now a b n }
{
    let file = u8::try_from(a).ok()?;
    if name == b"skip".as_slice() {
        return Some(Command::Reading(Reading::Skip(file, b, n as usize)));
    }
    of_read(name, file, b, n)
}

// A command that carries no bytes.
fn of_numbers(name: &[u8], found: Numbers) -> Option<Command>
    ensures { result ≡ of_numbers name.now found }
{
    match found {
        Numbers::Zero => plain(name),
        Numbers::One(a) => of_one(name, a),
        Numbers::Two(a, b) => of_two(name, a, b),
        Numbers::Three(a, b, c) => of_three(name, a, b, c),
    }
}

fn shown_by(name: &[u8]) -> Option<Command>
    ensures { result ≡ shown_by name.now }
{
    Some(Command::Show(if name == b"state".as_slice() {
        Show::State
    } else if name == b"table".as_slice() {
        Show::Table
    } else if name == b"map".as_slice() {
        Show::Map
    } else if name == b"image".as_slice() {
        Show::Image
    } else {
        return None;
    }))
}

fn the_page(page: u32) -> Option<Command>
    ensures { result ≡ the_page page }
{
    let page = u16::try_from(page).ok()?;
    Some(Command::Show(Show::Page(usize::from(page))))
}

// What stands behind `show`.
#[tactic(auto, using(crate::proofs::Laws::words_first))]
fn show_of(words: &mut Words) -> Option<Command>
    ensures { result ≡ show_of words.old }
{
    let name = words.next()?;
    let Some(page) = words.next() else {
        return shown_by(name);
    };
    if name != b"page".as_slice() {
        return None;
    }
    match words.rest() {
        Some(_) => None,
        None => the_page(bytes::number_of(page)?),
    }
}

// What is behind the name is read as it stands, since a space is no digit.
#[tactic(auto, using(crate::proofs::Laws::write_rest))]
fn write(words: &mut Words, buffer: &mut [u8]) -> Option<Command>
    ensures { told result buffer.new ≡ written words.old buffer.old }
{
    let Some(digits) = words.rest() else {
        return Some(Command::Writing(Writing::Write(0)));
    };
    let n = bytes::hex_of(digits, buffer)?;
    Some(Command::Writing(Writing::Write(n)))
}

fn filled(n: u32, start: u32, buffer: &mut [u8]) -> Option<Command>
    ensures { told result buffer.new ≡ filled_by n start buffer.old }
{
    let count = n as usize;
    if BYTES_MAX < n || buffer.len() < count {
        return None;
    }
    bytes::fill(&mut buffer[..count], start);
    Some(Command::Writing(Writing::Write(count)))
}

fn fill(words: &mut Words, buffer: &mut [u8]) -> Option<Command>
    ensures { told result buffer.new ≡ filled (numbers words.old) buffer.old }
{
    let Some(Numbers::Two(n, start)) = numbers_of(words) else {
        return None;
    };
    filled(n, start, buffer)
}

#[tactic(auto, using(crate::proofs::Laws::poke_rest))]
fn poke(words: &mut Words, into: Buffer, buffer: &mut [u8]) -> Option<Command>
    ensures { told result buffer.new ≡ poked into words.old buffer.old }
{
    let at = bytes::number_of(words.next()?)?;
    let n = bytes::hex_of(words.rest()?, buffer)?;
    Some(Command::Setup(Setup::Poke(into, at, n)))
}

// By `==`: on a `match` over byte strings the check gives up at the longer names.
fn named(name: &[u8], words: &mut Words, buffer: &mut [u8]) -> Option<Command>
    ensures { told result buffer.new ≡ named name.now words.old buffer.old }
{
    if name == b"show".as_slice() {
        show_of(words)
    } else if name == b"write".as_slice() {
        write(words, buffer)
    } else if name == b"fill".as_slice() {
        fill(words, buffer)
    } else if name == b"poke".as_slice() {
        poke(words, Buffer::Image, buffer)
    } else if name == b"pokemap".as_slice() {
        poke(words, Buffer::Map, buffer)
    } else {
        of_numbers(name, numbers_of(words)?)
    }
}

// The command that a line is, without its newline, if it is one.
pub fn command_of(line: &[u8], buffer: &mut [u8]) -> Option<Command>
    ensures { told result buffer.new ≡ command_of line.now buffer.old }
{
    if line.is_empty() || line[0] == b'#' {
        return Some(Command::Nothing);
    }
    if LINE_MAX < line.len() {
        return None;
    }
    let mut words = Words::new(line);
    let name = words.next()?;
    named(name, &mut words, buffer)
}
