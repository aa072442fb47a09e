// Answers a script of calls, line by line: the replay protocol over the proved calls.
#![tactic(auto)]

use answers::world::World;
use script::text::Output;
use std::io;
use std::io::Read;

// No answer is longer than half of the output buffer.
const HELD: usize = 65536;

// What goes from line to line: the world with its buffers, the bytes that a command carries, as much of a line as has come, and the
// answers that are not written yet.
#[derive(Drop)]
struct Replay<'a> {
    world: World,
    image: &'a mut [u8],
    map: &'a mut [u8],
    bytes: &'a mut [u8],
    line: Output<'a>,
    output: Output<'a>,
}

impl<'a> Replay<'a> {
    // Writes what is held.
    fn flush(&mut self, rt: &impl Print) -> io::Result<()> {
        rt.write_all(self.output.held())?;
        self.output.clear();
        Ok(())
    }

    // Answers the line that has come. One that was too long has filled its buffer.
    fn answer(&mut self) {
        self.world.answer(
            self.image,
            self.map,
            self.line.held(),
            self.bytes,
            &mut self.output,
        );
        self.line.clear();
    }

    // Each line that ends in a chunk is answered, and the others' answers are written with it.
    fn take(&mut self, rt: &impl Print, chunk: &[u8]) -> io::Result<()> {
        for (newlines, part) in chunk.split(|b| *b == b'\n').enumerate() {
            if newlines != 0 {
                self.answer();
                if HELD <= self.output.at() {
                    self.flush(rt)?;
                }
            }
            self.line.put(part);
        }
        Ok(())
    }

    // Answers the input to its end: the last line needs no newline. A proved loop has to end, and nothing says that the input does: the
    // loop counts its turns, of which no run uses up all.
    fn run<R: Read>(&mut self, rt: &impl Print, input: &mut R, chunk: &mut [u8]) -> io::Result<()> {
        for _ in 0..u64::MAX {
            match input.read(chunk) {
                Ok(0) => break,
                Ok(n) => self.take(rt, &chunk[..n])?,
                Err(why) => {
                    // what is held is written all the same
                    self.flush(rt)?;
                    return Err(why);
                }
            }
        }
        self.answer();
        self.flush(rt)
    }
}

fn main(rt: HostRuntime) -> io::Result<()> {
    let mut image = [255; 262656];
    let mut map = [0; 1026];
    let mut bytes = [0; 65536];
    let mut chunk = [0; 65536];
    let mut gathered = [0; 65536];
    let mut held = [0; 131072];
    let line = Output::new(&mut gathered, 0);
    let output = Output::new(&mut held, 0);
    let mut replay = Replay {
        world: World::fresh(1, 0, 0),
        image: &mut image,
        map: &mut map,
        bytes: &mut bytes,
        line,
        output,
    };
    replay.run(&rt, &mut rt.stdin(), &mut chunk)
}
