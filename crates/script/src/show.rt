// What `show` prints.
ghost use Rattle.std.specs.Prelude.{◌≡◌};
ghost use Rattle.script.specs.Text.{puts};
ghost use Rattle.script.specs.Show.{writer_shown, search_shown, mounted_shown, state_shown, links_shown, file_shown, table_shown, page_shown, sum_shown, image_shown, shown};

use crate::bytes::adler32;
use crate::command::Show;
use crate::say;
use crate::text::Output;
use state::types::{FileRecord, Search, State, Table, Writer};

fn show_writer(output: &mut Output, w: &Writer)
    ensures { output.new ≡ puts output.old (writer_shown w.now) }
{
    if !w.active {
        output.put(b" writer none");
        return;
    }
    let numbers = [
        u64::from(w.file),
        u64::from(w.seq),
        w.page as u64,
        w.previous as u64,
        u64::from(w.copied),
        u64::from(w.boundary),
        u64::from(w.ended),
    ];
    say::form(output, b" writer %:%:%:%:%:%:%", &numbers);
}

fn show_search(output: &mut Output, q: &Search)
    ensures { output.new ≡ puts output.old (search_shown q.now) }
{
    if !q.active {
        output.put(b" search none\n");
        return;
    }
    let numbers = [
        u64::from(q.file),
        u64::from(q.left),
        u64::from(q.right),
        u64::from(q.result),
        u64::from(q.mid),
    ];
    say::form(output, b" search %:%:%:%:%\n", &numbers);
}

fn show_mounted(output: &mut Output, s: &State)
    ensures { output.new ≡ puts output.old (mounted_shown s.now) }
{
    let numbers = [
        s.pages as u64,
        s.page_count as u64,
        s.meta_page as u64,
        u64::from(s.meta_seq),
        s.cursor as u64,
        u64::from(s.seed),
        u64::from(s.transaction),
    ];
    say::form(
        output,
        b"state pages % count % meta % seq % cursor % seed % transaction %",
        &numbers,
    );
}

fn show_state(output: &mut Output, s: &State)
    ensures { output.new ≡ puts output.old (state_shown s.now) }
{
    if !state::checks::is_mounted(s) {
        say::form(output, b"state unmounted seed %\n", &[u64::from(s.seed)]);
        return;
    }
    show_mounted(output, s);
    show_writer(output, &s.writer);
    show_search(output, &s.search);
}

fn show_links(output: &mut Output, links: [u16; 9])
    ensures { output.new ≡ puts output.old (links_shown links) }
{
    let numbers = links.map(|link| u64::from(link));
    say::form(output, b" links %,%,%,%,%,%,%,%,%\n", &numbers);
}

fn show_file(output: &mut Output, i: usize, f: &FileRecord)
    ensures { output.new ≡ puts output.old (file_shown i f.now) }
{
    let h = &f.header;
    let numbers = [
        i as u64,
        u64::from(f.first_seq),
        u64::from(f.last_seq),
        u64::from(f.flags),
        u64::from(f.dirty),
        f.last_page as u64,
        u64::from(h.seq),
        u64::from(h.length),
        u64::from(h.record_boundary),
    ];
    say::form(
        output,
        b"file % first % last % flags % dirty % page % seq % length % boundary %",
        &numbers,
    );
    show_links(output, h.skiplist);
}

fn show_table(output: &mut Output, table: &Table)
    ensures { output.new ≡ puts output.old (table_shown table.now) }
{
    let files: &[FileRecord] = &table.files;
    prove!(files.len() == 8);
    for (i, f) in files.iter().enumerate() {
        show_file(output, i, f);
    }
}

fn show_page(output: &mut Output, image: &[u8], p: usize)
    ensures { output.new ≡ puts output.old (page_shown image.now p) }
{
    let bytes = page::page_of(image, p);
    if bytes.is_empty() {
        say::bad(output);
    } else {
        say::hex(output, b"page", bytes);
    }
}

// A page's sum, where it is not all 0xFF.
fn show_sum(output: &mut Output, image: &[u8], p: usize)
    ensures { output.new ≡ puts output.old (sum_shown image.now p) }
{
    let bytes = page::page_of(image, p);
    if !runs::all_erased(bytes) {
        let numbers = [p as u64, u64::from(adler32(bytes))];
        say::form(output, b"page % %\n", &numbers);
    }
}

fn show_image(output: &mut Output, image: &[u8])
    ensures { output.new ≡ puts output.old (image_shown image.now) }
{
    for p in 0..image.len() / 256 {
        show_sum(output, image, p);
    }
    say::form(output, b"image %\n", &[u64::from(adler32(image))]);
}

pub fn on_show(
    output: &mut Output,
    image: &[u8],
    map: &[u8],
    table: &Table,
    state: &State,
    what: Show,
)
    ensures { output.new ≡ puts output.old (shown image.now map.now table.now state.now what) }
{
    match what {
        Show::State => show_state(output, state),
        Show::Table => show_table(output, table),
        Show::Map => say::hex(output, b"map", map),
        Show::Page(p) => show_page(output, image, p),
        Show::Image => show_image(output, image),
    }
}
