// The answer to a command: the world that it leaves, with the answer's text in the output buffer.
ghost use Rattle.std.specs.Prelude.{◌≡◌};
ghost use Rattle.answers.specs.World.{turned, left, scene};
ghost use Rattle.answers.specs.Calls.{sight};
ghost use Rattle.answers.specs.Answer.{poked_by, on_setup, on_lent, on_command, answered};

use crate::call;
use crate::world::World;
use script::command::{Buffer, Command, Setup};
use script::say;
use script::text::Output;

fn poke(target: &mut [u8], offset: usize, run: &[u8], output: &mut Output)
    ensures { sight target.new output.new ≡ poked_by target.old offset run.now output.old }
{
    if target.len() < offset || target.len() - offset < run.len() {
        say::bad(output);
        return;
    }
    runs::place(target, offset, run);
    say::ok(output);
}

impl World {
    // The commands that are no calls, on the whole buffers.
    fn on_setup(
        &mut self,
        image: &mut [u8],
        map: &mut [u8],
        bytes: &[u8],
        output: &mut Output,
        what: Setup,
    )
        ensures { left image.new map.new (turned output.new self.new) ≡ on_setup what image.old map.old bytes.now self.old output.old }
    {
        match what {
            Setup::Lend(image, map) => {
                self.image = image as usize;
                self.map = map as usize;
                say::ok(output);
            }
            Setup::New(seed) => {
                *self = World::fresh(seed, self.image, self.map);
                say::ok(output);
            }
            Setup::Blank => {
                runs::fill(image, 255);
                runs::fill(map, 0);
                say::ok(output);
            }
            Setup::Poke(Buffer::Image, offset, n) => {
                poke(image, offset as usize, runs::part_of(bytes, 0, n), output);
            }
            Setup::Poke(Buffer::Map, offset, n) => {
                poke(map, offset as usize, runs::part_of(bytes, 0, n), output);
            }
        }
    }

    // The others, on what is lent of the buffers.
    fn on_lent(
        &mut self,
        image: &mut [u8],
        map: &mut [u8],
        bytes: &mut [u8],
        output: &mut Output,
        command: Command,
    )
        ensures { scene bytes.new (left image.new map.new (turned output.new self.new))
            ≡ on_lent command image.old map.old bytes.old self.old output.old }
    {
        match command {
            Command::Volume(what) => self.on_volume(image, map, output, what),
            Command::Reading(what) => self.on_reading(image, map, bytes, output, what),
            Command::Searching(what) => self.on_searching(image, map, output, what),
            Command::Writing(what) => self.on_writing(image, map, bytes, output, what),
            Command::Files(what) => self.on_files(image, map, output, what),
            Command::Show(what) => self.on_show(image, map, output, what),
            Command::Helper(what) => call::on_helper(output, what),
            Command::Setup(_) => {}
            Command::Nothing => {}
        }
    }

    fn on_command(
        &mut self,
        image: &mut [u8],
        map: &mut [u8],
        bytes: &mut [u8],
        output: &mut Output,
        command: Command,
    )
        ensures { scene bytes.new (left image.new map.new (turned output.new self.new))
            ≡ on_command command image.old map.old bytes.old self.old output.old }
    {
        if let Command::Setup(what) = command {
            self.on_setup(image, map, bytes, output, what);
            return;
        }
        let i = self.image.min(image.len());
        let m = self.map.min(map.len());
        self.on_lent(&mut image[..i], &mut map[..m], bytes, output, command);
    }

    // The answer to a line.
    pub fn answer(
        &mut self,
        image: &mut [u8],
        map: &mut [u8],
        line: &[u8],
        bytes: &mut [u8],
        output: &mut Output,
    )
        ensures { scene bytes.new (left image.new map.new (turned output.new self.new))
            ≡ answered line.now image.old map.old bytes.old self.old output.old }
    {
        match script::command::command_of(line, bytes) {
            Some(command) => self.on_command(image, map, bytes, output, command),
            None => say::bad(output),
        }
    }
}
