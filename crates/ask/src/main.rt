// Answers the question that stands on standard input (docs/LAYOUT.md). This only moves bytes: what is written comes from `ask_answer`.
#![tactic(auto)]

ghost use Rattle.std.specs.Prelude.{◌≡◌, length};
ghost use Rattle.ask_answer.specs.Capacity.{text_bytes, word_count, window_words};

use ask_answer::{TEXT_BYTES, WINDOW, WORDS};
use std::io;
use std::io::Stdout;
use whole_input::read_full;

// What is written stands in the buffer that the text was read into.
fn main(rt: HostRuntime) -> io::Result<()> {
    // Both before the text is read: made after it, the second would be zeroed twice.
    let mut text = text_buffer();
    let mut words = word_buffer();
    let n = read_full(&mut rt.stdin(), &mut text)?;
    let count = ask_answer::read_question(&text[..n], &mut words);
    put_answer(rt.stdout(), &words[..count], &mut text)
}

// The answer, part after part.
fn put_answer(to: Stdout, words: &[u64], out: &mut [u8]) -> io::Result<()>
    requires { length out.old ≡ text_bytes }
{
    let mut rows = window_buffer();
    let mut part = ask_answer::begin(words, out);
    loop {
        let count = part.length;
        to.write_all(&out[..count])?;
        let Some(following) = part.following else {
            return Ok(());
        };
        // evaluation was not refused when the answer began
        let Ok(next) = ask_answer::go_on(words, following, &mut rows, out) else {
            return Ok(());
        };
        part = next;
    }
}

fn text_buffer() -> [u8; TEXT_BYTES]
    ensures { text_bytes ≡ length result }
{
    [0; TEXT_BYTES]
}

fn word_buffer() -> [u64; WORDS]
    ensures { word_count ≡ length result }
{
    [0; WORDS]
}

fn window_buffer() -> [u64; WINDOW]
    ensures { window_words ≡ length result }
{
    [0; WINDOW]
}
