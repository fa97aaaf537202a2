// Cases of `replay`: the text of a plan, and names of its selects and slots. A case is the plan (`given`); how many name bytes
// follow, and these; how many ends, and these; the number of the select whose name is asked; how many buffers to try, and the length of
// each; how many slots are asked for, and their numbers. The buffer that is lent is shown whole, so that bytes past the text are seen to
// stay. What is no printable ASCII nor a line's end is shown as a number. compare/texts.rs makes cases and answers.
ghost use Rattle.std.specs.Prelude.{◌≡◌, length};
ghost use Rattle.replay_plans.specs.Capacity.{buffer_bytes};

use plan::{Plan, Slot};
use replay_given::given;
use replay_given::numbers::Numbers;
use replay_given::written::said;
use std::io::Stdout;
use std::{fmt, io};

// The longest buffer for a text, an image or an image given.
pub const BUFFER_BYTES: usize = 4096;

// The most bytes of names, and how many names.
const NAME_BYTES: usize = 1024;

const NAMES: usize = 128;

// A plan with its names.
pub fn put_case(to: Stdout, numbers: &mut Numbers) -> io::Result<()> {
    let plan = numbers.plan();
    let mut name_room = [0; NAME_BYTES];
    let mut end_room = [0; NAMES];
    let names = numbers.bytes(&mut name_room);
    let ends = numbers.ends(&mut end_room);
    let select = numbers.number() as usize;
    put_name(to, plan, names, ends, select)?;
    for _ in 0..numbers.number() {
        let room = numbers.number();
        if let Some(buffer) = blank().get_mut(..room as usize) {
            put_text(to, plan, names, ends, buffer)?;
        }
    }
    for _ in 0..numbers.number() {
        put_slot(to, plan, names, ends, given::slot(numbers.number()))?;
    }
    Ok(())
}

// Bytes as they are shown.
#[derive(Drop)]
struct Shown<'a>(&'a [u8]);

impl<'a> fmt::Display for Shown<'a> {
    fn fmt<W: fmt::Write>(&self, f: &mut fmt::Formatter<W>) -> fmt::Result {
        for byte in self.0 {
            if matches!(byte, b'\n' | b' '..=b'~') {
                write!(f, "{}", *byte as char)?;
            } else {
                write!(f, "\\{byte};")?;
            }
        }
        Ok(())
    }
}

// The name of a select, by both calls.
fn put_name(to: Stdout, plan: Plan, names: &[u8], ends: &[usize], select: usize) -> io::Result<()> {
    let check = text_names::check_select_name(plan, names, ends, select);
    let name = text_names::get_select_name(plan, names, ends, select);
    println!(to; "name {} [{}]", said(check), Shown(name))
}

// The text written to a buffer, and the buffer after it.
fn put_text(
    to: Stdout,
    plan: Plan,
    names: &[u8],
    ends: &[usize],
    out: &mut [u8],
) -> io::Result<()> {
    let formatted = plan_text::fmt(plan, names, ends, out);
    let length = formatted.unwrap_or(0);
    println!(to;
        "text {}, length {length} [{}]",
        said(formatted.map(|_| ())),
        Shown(out)
    )
}

// A buffer that shows which bytes stay.
pub fn blank() -> [u8; BUFFER_BYTES]
    ensures { buffer_bytes ≡ length result }
{
    [b'~'; BUFFER_BYTES]
}

// What the names' check says, whether a slot is a constant, and its name.
fn put_slot(to: Stdout, plan: Plan, names: &[u8], ends: &[usize], slot: Slot) -> io::Result<()> {
    let check = text_names::check_names(plan, names, ends);
    let kind = if text_names::is_constant(plan.slots, plan.slot_count, slot) {
        "constant"
    } else {
        "variable"
    };
    let name = text_names::get_name(slot, names, ends);
    println!(to; "slot {}, {kind} [{}]", said(check), Shown(name))
}
