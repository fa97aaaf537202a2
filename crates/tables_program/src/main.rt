// Writes the tables of the heap that stands on standard input (docs/LAYOUT.md, "The tables of a heap"). This only moves bytes: what is written
// comes from `tables_answer`.
#![tactic(auto)]

ghost use Rattle.std.specs.Prelude.{◌≡◌, length};
ghost use Rattle.tables_answer.specs.Capacity.{text_bytes, answer_bytes};

use std::io;
use tables_answer::{ANSWER_BYTES, TEXT_BYTES};
use whole_input::read_full;

fn main(rt: HostRuntime) -> io::Result<()> {
    // Both before the text is read: made after it, the second would be zeroed twice.
    let mut text = text_buffer();
    let mut out = answer_buffer();
    let n = read_full(&mut rt.stdin(), &mut text)?;
    let count = tables_answer::answer(&text[..n], &mut out);
    rt.stdout().write_all(&out[..count])
}

fn text_buffer() -> [u8; TEXT_BYTES]
    ensures { text_bytes ≡ length result }
{
    [0; TEXT_BYTES]
}

fn answer_buffer() -> [u8; ANSWER_BYTES]
    ensures { answer_bytes ≡ length result }
{
    [0; ANSWER_BYTES]
}
