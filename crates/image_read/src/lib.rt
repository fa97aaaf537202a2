// A stored plan, read as 02's Ticket 2 says: field by field, the first fault met is refused at the byte where its field begins; then the plan
// check runs. Added: the Rust keeps no plans. `fields` reads a field wherever it begins, `parts` slots, scans and selects.
#![tactic(auto)]

mod fields;
mod parts;

ghost use Rattle.std.specs.Prelude.{◌≡◌, ◌%◌, ◌^◌, get_or, eqb};
ghost use Rattle.refusal.specs.Verdict.{answer, or_else};
ghost use Rattle.plan.specs.Plan.{Counted};
ghost use Rattle.plan_check.specs.Check.{check_of};
ghost use Rattle.bits.specs.Bits.{padding};
ghost use Rattle.image.specs.Read.{fields as Image·fields, end_fault, plan_read_of};
ghost use Rattle.image_read.specs.Reads.{bit_of, bits_from, Within, Reads};
ghost use Rattle.image_read.specs.Plan.{start, ReadsCounts, plan_behind};

use fields::{BYTE_BITS, Cursor, bytes_of, power, read_field};
use image::{SCAN_COUNT_BITS, SELECT_COUNT_BITS, SLOT_COUNT_BITS};
use parts::{read_scans, read_selects, read_slots};
use plan::Plan;
use plan_check::check_invariants;
use refusal::{Refusal, Rule, Verdict, refuse};

// How many scans, slots and selects an image has.
#[derive(Clone, Copy)]
struct Counts {
    scans: usize,
    slots: usize,
    selects: usize,
}

// The plan that bytes say.
pub fn read_image(bytes: &[u8]) -> Result<Plan, Refusal>
    ensures { let said = plan_read_of bytes.now in result ≡ answer said.verdict said.plan }
{
    let (plan, end) = read_fields(bytes)?;
    check_read(bytes, end, plan)?;
    Ok(plan)
}

// The fields of a plan: the counts, slots, scans and selects.
fn read_fields(bytes: &[u8]) -> Result<(Plan, Cursor), Refusal>
    ensures { Reads Image·fields bytes.now start result }
{
    let (counts, at) = read_counts(bytes)?;
    read_plan(bytes, at, counts)
}

// The three counts. 20 comes right after them.
fn read_counts(bytes: &[u8]) -> Result<(Counts, Cursor), Refusal>
    ensures { ReadsCounts bytes.now result }
{
    let begin = Cursor { byte: 0, bit: 0 };
    let (scans, at) = read_field(bytes, begin, SCAN_COUNT_BITS)?;
    let (slots, at) = read_field(bytes, at, SLOT_COUNT_BITS)?;
    let (selects, at) = read_field(bytes, at, SELECT_COUNT_BITS)?;
    let counts = Counts {
        scans: scans as usize,
        slots: slots as usize,
        selects: selects as usize,
    };
    plan::check_counts(counts.scans, counts.slots, counts.selects)?;
    Ok((counts, at))
}

// The slots, the scans and the selects, as many as the counts say.
fn read_plan(bytes: &[u8], at: Cursor, counts: Counts) -> Result<(Plan, Cursor), Refusal>
    requires { Within bytes.now at × Counted counts.scans counts.slots counts.selects }
    ensures { Reads (plan_behind counts) bytes.now at result }
{
    let (slots, at) = read_slots(bytes, at, counts.slots)?;
    let (scans, at) = read_scans(bytes, at, counts.scans)?;
    let (select, end) = read_selects(bytes, at, counts.selects)?;
    let plan = Plan {
        scans,
        scan_count: counts.scans,
        slots,
        slot_count: counts.slots,
        select,
        select_count: counts.selects,
    };
    Ok((plan, end))
}

// The end, and then the plan check.
fn check_read(bytes: &[u8], end: Cursor, plan: Plan) -> Verdict
    requires { Within bytes.now end }
    ensures { result ≡ or_else (end_fault (bits_from bytes.now end) (bit_of end)) (check_of plan) }
{
    check_end(bytes, end)?;
    check_invariants(plan)
}

// 62: a pad bit is not zero; 63: a byte too many.
fn check_end(bytes: &[u8], end: Cursor) -> Verdict
    requires { Within bytes.now end }
    ensures { result ≡ end_fault (bits_from bytes.now end) (bit_of end) }
{
    if !pad_is_zero(bytes, end) {
        return refuse(Rule::PadNotZero, end.byte);
    }
    let length = end.byte + bytes_of(end.bit);
    if length < bytes.len() {
        return refuse(Rule::ByteTooMany, length);
    }
    Ok(())
}

// Whether the bits left of a byte that has begun are zero.
fn pad_is_zero(bytes: &[u8], end: Cursor) -> bool
    requires { Within bytes.now end }
    ensures { result ≡ eqb (get_or bytes.now end.byte 0 % 2 ^ padding (bit_of end)) 0 }
{
    end.bit == 0 || u64::from(bytes[end.byte]) % power(BYTE_BITS - end.bit) == 0
}
