// The listing program: an image on standard input, a line for each file that is not empty on standard output.
#![tactic(auto)]

ghost use Rattle.std.specs.Prelude.{◌≤◌, length, IfOk};

use inventory::FileLine;
use state::types::Refusal;
use std::io;
use std::io::Read;

fn print_line(rt: &impl Print, id: usize, line: &FileLine) -> io::Result<()> {
    let FileLine {
        first,
        last,
        flags,
        pages,
    } = *line;
    println!(rt; "file {id} first {first} last {last} flags {flags} pages {pages}")
}

// An empty file has no line.
fn print_files(rt: &impl Print, lines: [Option<FileLine>; 8]) -> io::Result<()> {
    let count = lines.iter().filter(|line| line.is_some()).count();
    println!(rt; "files {count}")?;
    for (id, line) in lines.iter().enumerate() {
        if let Some(line) = line {
            print_line(rt, id, line)?;
        }
    }
    Ok(())
}

fn print_inventory(
    rt: &impl Print,
    inventory: Result<[Option<FileLine>; 8], Refusal>,
) -> io::Result<()> {
    match inventory {
        Ok(lines) => print_files(rt, lines),
        Err(why) => {
            let refused = u8::from(why);
            println!(rt; "refused {refused}")
        }
    }
}

// Fills buf as far as the input goes, and answers how many bytes came. `read_to_end` would allocate, and read on after an interruption.
fn read_full<R: Read>(input: &mut R, buf: &mut [u8]) -> io::Result<usize>
    ensures { IfOk result (λ n. n ≤ length buf.new) }
{
    let mut done = 0;
    while done < buf.len() {
        let n = input.read(&mut buf[done..])?;
        if n == 0 {
            break;
        }
        done += n;
    }
    Ok(done)
}

// Reads once more, and answers whether something came.
fn read_some<R: Read>(input: &mut R) -> io::Result<bool> {
    let mut rest = [0; 4096];
    let n = input.read(&mut rest)?;
    Ok(0 < n)
}

// A longer input is read to its end, so that whoever writes it is not cut off. A proved loop has to end: no run uses the turns up.
fn drain<R: Read>(input: &mut R) -> io::Result<()> {
    for _ in 0..u64::MAX {
        if !read_some(input)? {
            break;
        }
    }
    Ok(())
}

// One byte more than the largest image.
const ROOM: usize = 65537;

fn main(rt: HostRuntime) -> io::Result<()> {
    let mut image = [0; ROOM];
    let mut input = rt.stdin();
    let n = read_full(&mut input, &mut image)?;
    if n == ROOM {
        drain(&mut input)?;
    }
    print_inventory(&rt, inventory::list_image(&image[..n]))
}
