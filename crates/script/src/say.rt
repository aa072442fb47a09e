// Answers, put behind each other into the output buffer.
ghost use Rattle.std.specs.Prelude.{◌≡◌};
ghost use Rattle.script.specs.Text.{puts};
ghost use Rattle.script.specs.Say.{formed, ok, bad, refused, done, hex};

use crate::text;
use crate::text::Output;
use state::types::Refusal;

// A form with numbers for its marks, each a %.
pub fn form(output: &mut Output, form: &[u8], numbers: &[u64])
    ensures { output.new ≡ puts output.old (formed form.now numbers.now) }
{
    let mut left = form;
    for n in numbers {
        let (words, rest) = text::cut(left, b'%');
        output.put(words);
        let Some(rest) = rest else {
            return;
        };
        output.put_number(*n);
        left = rest;
    }
    output.put(text::cut(left, b'%').0);
}

pub fn ok(output: &mut Output)
    ensures { output.new ≡ puts output.old ok }
{
    output.put(b"ok\n");
}

pub fn bad(output: &mut Output)
    ensures { output.new ≡ puts output.old bad }
{
    output.put(b"bad\n");
}

pub fn refused(output: &mut Output, why: Refusal)
    ensures { output.new ≡ puts output.old (refused why) }
{
    form(output, b"refused %\n", &[u64::from(u8::from(why))]);
}

pub fn done(output: &mut Output, answer: Result<(), Refusal>)
    ensures { output.new ≡ puts output.old (done answer) }
{
    match answer {
        Ok(()) => ok(output),
        Err(why) => refused(output, why),
    }
}

// A word and bytes in hex behind it, or the word alone.
pub fn hex(output: &mut Output, word: &[u8], bytes: &[u8])
    ensures { output.new ≡ puts output.old (hex word.now bytes.now) }
{
    output.put(word);
    if !bytes.is_empty() {
        output.put(b" ");
        output.put_hex(bytes);
    }
    output.put(b"\n");
}
