// All calls for C and Rust: image and map are lent, table and state go in and come back by value; a search changes the state in place. Each
// call is a function of its own, since C calls it by its name.
#![tactic(auto, using(crate::proofs::Told::replied_is, crate::proofs::Told::read_is, crate::proofs::Told::sought_is))]

ghost use Rattle.std.specs.Prelude.{◌≡◌};
ghost use Rattle.state.specs.Values.{unmounted, empty_table};
ghost use Rattle.state.specs.World.{before, after_call};
ghost use Rattle.volume.specs.Format.{format};
ghost use Rattle.volume.specs.Mount.{mount};
ghost use Rattle.reader.specs.Ask.{reader_at, free_pages, used_pages};
ghost use Rattle.reader.specs.Locate.{locate};
ghost use Rattle.reader.specs.Read.{read};
ghost use Rattle.reader.specs.Skip.{skip, seek_offset};
ghost use Rattle.search.specs.Search.{start, turn};
ghost use Rattle.writer.specs.Open.{open_writer};
ghost use Rattle.writer.specs.Write.{write, record_end};
ghost use Rattle.writer.specs.Finish.{finish, discard};
ghost use Rattle.transact.specs.Truncate.{truncate};
ghost use Rattle.transact.specs.Rename.{rename, flags as changed_by};
ghost use Rattle.transact.specs.Commit.{commit};
ghost use Rattle.export.specs.Replies.{Replied, ReadReplied, SearchReplied, located_reply, skipped_reply};

use reader::Reader;
use replies::{LocateReply, Reply, SearchReply, SeqReply, code_of};
use state::types::{State, Table};

mod replies;

// An unmounted state of this seed.
#[unsafe(no_mangle)]
pub extern "C" fn mv_new_state(seed: u32) -> State
    ensures { result ≡ unmounted seed }
{
    state::values::new_state(seed)
}

// Eight empty files.
#[unsafe(no_mangle)]
pub extern "C" fn mv_empty_table() -> Table
    ensures { result ≡ empty_table }
{
    state::values::empty_table()
}

// Empties the image and mounts it.
#[unsafe(no_mangle)]
pub extern "C" fn mv_format(
    image: &mut [u8],
    map: &mut [u8],
    mut table: Table,
    mut state: State,
) -> Reply
    ensures { Replied result image.new map.new (after_call format (before image.old map.old table state)) }
{
    let answer = volume::format(image, map, &mut table, &mut state);
    Reply {
        code: code_of(&answer),
        table,
        state,
    }
}

// Mounts an image as it is.
#[unsafe(no_mangle)]
pub extern "C" fn mv_mount(
    image: &[u8],
    map: &mut [u8],
    mut table: Table,
    mut state: State,
) -> Reply
    ensures { Replied result image.now map.new (after_call mount (before image.now map.old table state)) }
{
    let answer = volume::mount(image, map, &mut table, &mut state);
    Reply {
        code: code_of(&answer),
        table,
        state,
    }
}

// The page of a number.
#[unsafe(no_mangle)]
pub extern "C" fn mv_locate(
    image: &[u8],
    map: &[u8],
    table: Table,
    state: State,
    file: u8,
    seq: u32,
) -> LocateReply
    ensures { result ≡ located_reply (locate (before image.now map.now table state) file seq) }
{
    reader::locate(image, map, &table, &state, file, seq).into()
}

// Fills out with the bytes from a number on.
#[unsafe(no_mangle)]
pub extern "C" fn mv_read(
    image: &[u8],
    map: &[u8],
    table: Table,
    state: State,
    file: u8,
    seq: u32,
    out: &mut [u8],
) -> SeqReply
    ensures { ReadReplied result out.new (read (before image.now map.now table state) (record { file = file; seq = seq }) out.old) }
{
    let mut reader = Reader { file, seq };
    let answer = reader::read(image, map, &table, &state, &mut reader, out);
    SeqReply {
        code: code_of(&answer),
        seq: reader.seq,
    }
}

// The number len bytes behind seq; seq itself where refused.
#[unsafe(no_mangle)]
pub extern "C" fn mv_skip(
    image: &[u8],
    map: &[u8],
    table: Table,
    state: State,
    file: u8,
    seq: u32,
    len: usize,
) -> SeqReply
    ensures { result ≡ skipped_reply seq (skip (before image.now map.now table state) (record { file = file; seq = seq }) len) }
{
    let to = reader::skip(image, map, &table, &state, Reader { file, seq }, len);
    replies::skipped(to, seq)
}

// The number offs bytes behind the file's first one; where refused, where a new reader stands.
#[unsafe(no_mangle)]
pub extern "C" fn mv_seek(
    image: &[u8],
    map: &[u8],
    table: Table,
    state: State,
    file: u8,
    offs: usize,
) -> SeqReply
    ensures { result ≡ skipped_reply (reader_at table file).seq (seek_offset (before image.now map.now table state) file offs) }
{
    let new = reader::ask::reader_of(&table, file);
    replies::skipped(
        reader::seek(image, map, &table, &state, file, offs),
        new.seq,
    )
}

// Starts a search for a record of a file. The state is the caller's and is changed in place, as in the next call.
#[unsafe(no_mangle)]
pub extern "C" fn mv_search(
    image: &[u8],
    map: &[u8],
    table: Table,
    state: &mut State,
    file: u8,
) -> SearchReply
    ensures { SearchReplied result image.now map.now table state.new (after_call (λ w. start w file) (before image.now map.now table state.old)) }
{
    search::search::search(image, map, &table, state, file).into()
}

// Answers the position on offer: what is searched lies left of it, or there or right of it.
#[unsafe(no_mangle)]
pub extern "C" fn mv_turn(
    image: &[u8],
    map: &[u8],
    state: &mut State,
    to_right: bool,
) -> SearchReply
    ensures { ((t : Table) → SearchReplied result image.now map.now t state.new (after_call (turn to_right) (before image.now map.now t state.old))) }
{
    search::search::turn(image, map, state, to_right).into()
}

// Opens a writer at a file's end.
#[unsafe(no_mangle)]
pub extern "C" fn mv_open(
    image: &[u8],
    map: &mut [u8],
    table: Table,
    mut state: State,
    file: u8,
) -> Reply
    ensures { Replied result image.now map.new (after_call (λ w. open_writer w file) (before image.now map.old table state)) }
{
    let answer = writer::open::open(image, map, &table, &mut state, file);
    Reply {
        code: code_of(&answer),
        table,
        state,
    }
}

// Writes all bytes or none.
#[unsafe(no_mangle)]
pub extern "C" fn mv_write(
    image: &mut [u8],
    map: &mut [u8],
    table: Table,
    mut state: State,
    bytes: &[u8],
) -> Reply
    ensures { Replied result image.new map.new (after_call (λ w. write w bytes.now) (before image.old map.old table state)) }
{
    let answer = writer::write::write(image, map, &table, &mut state, bytes);
    Reply {
        code: code_of(&answer),
        table,
        state,
    }
}

// Ends a record at the writer's place.
#[unsafe(no_mangle)]
pub extern "C" fn mv_record_end(image: &[u8], map: &[u8], table: Table, mut state: State) -> Reply
    ensures { Replied result image.now map.now (after_call record_end (before image.now map.now table state)) }
{
    let answer = writer::write::record_end(image, map, &table, &mut state);
    Reply {
        code: code_of(&answer),
        table,
        state,
    }
}

// Stores what is staged and closes the writer.
#[unsafe(no_mangle)]
pub extern "C" fn mv_finish(
    image: &mut [u8],
    map: &mut [u8],
    mut table: Table,
    mut state: State,
) -> Reply
    ensures { Replied result image.new map.new (after_call finish (before image.old map.old table state)) }
{
    let answer = writer::finish::finish(image, map, &mut table, &mut state);
    Reply {
        code: code_of(&answer),
        table,
        state,
    }
}

// Closes the writer and gives its pages back.
#[unsafe(no_mangle)]
pub extern "C" fn mv_discard(image: &[u8], map: &mut [u8], table: Table, mut state: State) -> Reply
    ensures { Replied result image.now map.new (after_call discard (before image.now map.old table state)) }
{
    let answer = writer::finish::discard(image, map, &table, &mut state);
    Reply {
        code: code_of(&answer),
        table,
        state,
    }
}

// Takes bytes off a file's start.
#[unsafe(no_mangle)]
pub extern "C" fn mv_truncate(
    image: &[u8],
    map: &mut [u8],
    mut table: Table,
    mut state: State,
    file: u8,
    bytes: usize,
) -> Reply
    ensures { Replied result image.now map.new (after_call (λ w. truncate w file bytes) (before image.now map.old table state)) }
{
    let answer = transact::truncate::truncate(image, map, &mut table, &mut state, file, bytes);
    Reply {
        code: code_of(&answer),
        table,
        state,
    }
}

// Swaps two files.
#[unsafe(no_mangle)]
pub extern "C" fn mv_rename(
    image: &[u8],
    map: &[u8],
    mut table: Table,
    mut state: State,
    from: u8,
    to: u8,
) -> Reply
    ensures { Replied result image.now map.now (after_call (λ w. rename w from to) (before image.now map.now table state)) }
{
    let answer = transact::rename::rename(image, map, &mut table, &mut state, from, to);
    Reply {
        code: code_of(&answer),
        table,
        state,
    }
}

// Sets a file's flags.
#[unsafe(no_mangle)]
pub extern "C" fn mv_flags(
    image: &[u8],
    map: &[u8],
    mut table: Table,
    mut state: State,
    file: u8,
    flags: u8,
) -> Reply
    ensures { Replied result image.now map.now (after_call (λ w. changed_by w file flags) (before image.now map.now table state)) }
{
    let answer = transact::flags::change_flags(image, map, &mut table, &mut state, file, flags);
    Reply {
        code: code_of(&answer),
        table,
        state,
    }
}

// Makes all changes since the last commit last.
#[unsafe(no_mangle)]
pub extern "C" fn mv_commit(
    image: &mut [u8],
    map: &mut [u8],
    table: Table,
    mut state: State,
) -> Reply
    ensures { Replied result image.new map.new (after_call commit (before image.old map.old table state)) }
{
    let answer = transact::commit::commit(image, map, &table, &mut state);
    Reply {
        code: code_of(&answer),
        table,
        state,
    }
}

// How many pages are free.
#[unsafe(no_mangle)]
pub extern "C" fn mv_free_pages(map: &[u8], state: State) -> usize
    ensures { result ≡ free_pages map.now state }
{
    reader::ask::free_pages(map, &state)
}

// How many pages are not free.
#[unsafe(no_mangle)]
pub extern "C" fn mv_used_pages(map: &[u8], state: State) -> usize
    ensures { result ≡ used_pages map.now state }
{
    reader::ask::used_pages(map, &state)
}
