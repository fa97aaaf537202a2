// Answers the cases that stand on standard input as decimal numbers: for each its kind, and then what the kind says (docs/REPLAY.md).
// stdin and stdout hold the stored cases and the Rust's answers to them; `compare/run --make` writes both.
#![tactic(auto)]

mod answers;
mod builds;
mod evaluations;
mod over_tables;

ghost use Rattle.std.specs.Prelude.{◌≡◌, length};
ghost use Rattle.replay.specs.Capacity.{text_bytes};

use replay_given::numbers::Numbers;
use replay_plans::{images, plans, queries, searches, swaps, texts, typed};
use std::io;
use std::io::Stdout;
use whole_input::read_full;

// The cases are shorter than this many bytes.
const TEXT_BYTES: usize = 1048576;

fn main(rt: HostRuntime) -> io::Result<()> {
    let mut text = text_buffer();
    let n = read_full(&mut rt.stdin(), &mut text)?;
    if TEXT_BYTES <= n {
        return println!(rt; "too many cases");
    }
    put_all(rt.stdout(), &text[..n])
}

// A function of its own: where the array is written in `main`, the proof of `main` runs out of stack.
fn text_buffer() -> [u8; TEXT_BYTES]
    ensures { text_bytes ≡ length result }
{
    [0; TEXT_BYTES]
}

// The answers to all cases of a text, up to one of an unknown kind.
fn put_all(to: Stdout, text: &[u8]) -> io::Result<()> {
    let mut numbers = Numbers::new(text);
    // A case has a digit at the least.
    for _ in 0..text.len() {
        let Some(kind) = numbers.next_number() else {
            return Ok(());
        };
        match kind {
            1 => swaps::put_case(to, &mut numbers)?,
            2 => plans::put_case(to, &mut numbers)?,
            3 => texts::put_case(to, &mut numbers)?,
            4 => queries::put_case(to, &mut numbers)?,
            5 => searches::put_case(to, &mut numbers)?,
            6 => over_tables::put_case(to, &mut numbers)?,
            7 => plans::put_parts(to, &mut numbers)?,
            8 => queries::put_check(to, &mut numbers)?,
            9 => typed::put_case(to, &mut numbers)?,
            10 => images::put_written(to, &mut numbers)?,
            11 => images::put_read(to, &mut numbers)?,
            12 => builds::put_case(to, &mut numbers)?,
            _ => return println!(to; "unknown kind"),
        }
    }
    Ok(())
}
