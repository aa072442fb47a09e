// The calls, each with its answer put into the output buffer. They take image and map apart, as the calls below do.
ghost use Rattle.std.specs.Prelude.{◌≡◌};
ghost use Rattle.seq.specs.Seq.{reply};
ghost use Rattle.state.specs.World.{before};
ghost use Rattle.script.specs.Text.{puts};
ghost use Rattle.script.specs.Show.{shown};
ghost use Rattle.answers.specs.World.{turned, left};
ghost use Rattle.answers.specs.Calls.{on_volume, located, skipped, sight, read_of, on_reading, sought, on_searching, on_writing, on_files, replied, on_helper};

use crate::world::World;
use reader::{Located, Reader};
use script::command::{Files, Helper, Reading, Searching, Show, Volume, Writing};
use script::text::Output;
use script::{say, show};
use search::Answer;
use seq::numbers::SeqError;
use state::types::Refusal;

fn said_located(output: &mut Output, found: Result<Located, Refusal>)
    ensures { output.new ≡ puts output.old (located found) }
{
    match found {
        Ok(at) => {
            let numbers = [u64::from(at.page), u64::from(at.headers)];
            say::form(output, b"at % %\n", &numbers);
        }
        Err(why) => say::refused(output, why),
    }
}

fn said_skipped(output: &mut Output, to: Result<u32, Refusal>)
    ensures { output.new ≡ puts output.old (skipped to) }
{
    match to {
        Ok(seq) => say::form(output, b"to %\n", &[u64::from(seq)]),
        Err(why) => say::refused(output, why),
    }
}

fn said_searched(output: &mut Output, answer: Result<Answer, Refusal>)
    ensures { output.new ≡ puts output.old (sought answer) }
{
    match answer {
        Ok(Answer::Offer(seq)) => say::form(output, b"offer %\n", &[u64::from(seq)]),
        Ok(Answer::End(seq)) => say::form(output, b"end %\n", &[u64::from(seq)]),
        Err(why) => say::refused(output, why),
    }
}

impl World {
    pub(crate) fn on_volume(
        &mut self,
        image: &mut [u8],
        map: &mut [u8],
        output: &mut Output,
        what: Volume,
    )
        ensures { left image.new map.new (turned output.new self.new) ≡ on_volume what image.old map.old self.old output.old }
    {
        let answer = match what {
            Volume::Format => volume::format(image, map, &mut self.table, &mut self.state),
            Volume::Mount => volume::mount(image, map, &mut self.table, &mut self.state),
        };
        say::done(output, answer);
    }

    // What is read goes by way of the lent bytes.
    fn read(
        &self,
        image: &[u8],
        map: &[u8],
        bytes: &mut [u8],
        output: &mut Output,
        from: Reader,
        n: usize,
    )
        ensures { sight bytes.new output.new ≡ read_of (before image.now map.now self.now.table self.now.state) from.file from.seq n bytes.old output.old }
    {
        if bytes.len() < n {
            say::bad(output);
            return;
        }
        let mut reader = from;
        match reader::read(
            image,
            map,
            &self.table,
            &self.state,
            &mut reader,
            &mut bytes[..n],
        ) {
            Ok(()) => say::hex(output, b"bytes", &bytes[..n]),
            Err(why) => say::refused(output, why),
        }
    }

    pub(crate) fn on_reading(
        &self,
        image: &[u8],
        map: &[u8],
        bytes: &mut [u8],
        output: &mut Output,
        what: Reading,
    )
        ensures { sight bytes.new output.new ≡ on_reading what image.now map.now bytes.old self.now output.old }
    {
        match what {
            Reading::Locate(file, seq) => {
                let found = reader::locate(image, map, &self.table, &self.state, file, seq);
                said_located(output, found);
            }
            Reading::Read(file, seq, n) => {
                self.read(image, map, bytes, output, Reader { file, seq }, n);
            }
            Reading::Skip(file, seq, n) => {
                let from = Reader { file, seq };
                said_skipped(
                    output,
                    reader::skip(image, map, &self.table, &self.state, from, n),
                );
            }
        }
    }

    pub(crate) fn on_searching(
        &mut self,
        image: &[u8],
        map: &[u8],
        output: &mut Output,
        what: Searching,
    )
        ensures { left image.now map.now (turned output.new self.new) ≡ on_searching what image.now map.now self.old output.old }
    {
        let answer = match what {
            Searching::Search(file) => {
                search::search::search(image, map, &self.table, &mut self.state, file)
            }
            Searching::Left => search::search::left(image, map, &mut self.state),
            Searching::Right => search::search::right(image, map, &mut self.state),
        };
        said_searched(output, answer);
    }

    pub(crate) fn on_writing(
        &mut self,
        image: &mut [u8],
        map: &mut [u8],
        bytes: &[u8],
        output: &mut Output,
        what: Writing,
    )
        ensures { left image.new map.new (turned output.new self.new) ≡ on_writing what bytes.now image.old map.old self.old output.old }
    {
        let World { table, state, .. } = self;
        let answer = match what {
            Writing::Open(file) => writer::open::open(image, map, table, state, file),
            Writing::Write(n) => {
                writer::write::write(image, map, table, state, runs::part_of(bytes, 0, n))
            }
            Writing::End => writer::write::record_end(image, map, table, state),
            Writing::Finish => writer::finish::finish(image, map, table, state),
            Writing::Discard => writer::finish::discard(image, map, table, state),
        };
        say::done(output, answer);
    }

    pub(crate) fn on_files(
        &mut self,
        image: &mut [u8],
        map: &mut [u8],
        output: &mut Output,
        what: Files,
    )
        ensures { left image.new map.new (turned output.new self.new) ≡ on_files what image.old map.old self.old output.old }
    {
        let World { table, state, .. } = self;
        let answer = match what {
            Files::Truncate(file, n) => {
                transact::truncate::truncate(image, map, table, state, file, n)
            }
            Files::Rename(from, to) => transact::rename::rename(image, map, table, state, from, to),
            Files::Flags(file, flags) => {
                transact::flags::change_flags(image, map, table, state, file, flags)
            }
            Files::Commit => transact::commit::commit(image, map, table, state),
        };
        say::done(output, answer);
    }

    pub(crate) fn on_show(&self, image: &[u8], map: &[u8], output: &mut Output, what: Show)
        ensures { output.new ≡ puts output.old (shown image.now map.now self.now.table self.now.state what) }
    {
        show::on_show(output, image, map, &self.table, &self.state, what);
    }
}

fn said_number(output: &mut Output, answer: Result<u32, SeqError>)
    ensures { output.new ≡ puts output.old (replied (reply answer)) }
{
    match answer {
        Ok(n) => say::form(output, b"value %\n", &[u64::from(n)]),
        Err(why) => say::refused(output, Refusal::from(why)),
    }
}

pub fn on_helper(output: &mut Output, what: Helper)
    ensures { output.new ≡ puts output.old (on_helper what) }
{
    match what {
        Helper::Zeros(a, b) => said_number(output, seq::numbers::max_trailing_zeros_between(a, b)),
        Helper::Index(a, b) => said_number(output, seq::numbers::skiplist_index(a, b)),
        Helper::SpanSeq(n, i) => said_number(output, seq::numbers::skiplist_seq(n, i)),
        Helper::Seed(s) => {
            say::form(output, b"value %\n", &[u64::from(seq::seed::seed_step(s))]);
        }
    }
}
