// Writes a stored plan, as 02's Ticket 2 says. Each function puts the bits of its part over those of the buffer, from bit `at` on.
#![tactic(auto)]

ghost use Rattle.std.specs.Prelude.{◌≡◌, ◌++◌, ◌+◌, ◌*◌, ◌^◌, ◌≤◌, ◌<◌, length, take};
ghost use Rattle.refusal.specs.Verdict.{answer};
ghost use Rattle.capacity.specs.Capacity.{max_scans, max_slots, max_selects};
ghost use Rattle.lists.specs.Laid.{laid};
ghost use Rattle.plan.specs.declared.SlotDefinition.TheVariants.{Constant};
ghost use Rattle.plan.specs.Plan.{Counted};
ghost use Rattle.bits.specs.Bits.{bits, bits_over};
ghost use Rattle.image.specs.Image.{definition_bits, slot_bits, scan_bits, select_bits, plan_bits, image_of, image_after, stored_of};

use bits::write_bits;
use image::{
    CODE_BITS, COUNTS_BITS, MARK_BITS, SCAN_BITS, SCAN_COUNT_BITS, SELECT_COUNT_BITS, SLOT_BITS,
    SLOT_COUNT_BITS, WORD_BITS,
};
use plan::{Plan, Scan, Slot, SlotDefinition, SlotRecord};
use refusal::{Refusal, Rule, refuse};

// Write the image of a plan to the front of a buffer. On a refusal the buffer stays as it is.
pub fn write_image(plan: Plan, out: &mut [u8]) -> Result<usize, Refusal>
    ensures value { let said = stored_of plan (length out.old) in result ≡ answer said.verdict said.length }
    ensures out_after { out.new ≡ image_after plan out.old }
{
    plan_check::check_invariants(plan)?;
    let length = image_length(plan);
    if out.len() < length {
        return refuse(Rule::NoRoomForImage, 0);
    }
    write_plan(plan, out);
    Ok(length)
}

// The length of an image: its bits, to the next byte.
fn image_length(plan: Plan) -> usize
    requires { Counted plan.scan_count plan.slot_count plan.select_count }
    ensures { result ≡ length (image_of plan) }
{
    let bits = COUNTS_BITS
        + count_slots(&plan.slots[..plan.slot_count])
        + SCAN_BITS * plan.scan_count
        + SLOT_BITS * plan.select_count;
    bits.div_ceil(8)
}

// How many bits the slots take.
fn count_slots(slots: &[SlotRecord]) -> usize
    requires { length slots.now ≤ max_slots }
    ensures { result ≡ length (laid slot_bits slots.now) }
{
    let mut count = 0;
    for slot in slots {
        count += count_slot(slot.definition);
    }
    count
}

// A mark, and a word for a constant.
fn count_slot(definition: SlotDefinition) -> usize
    ensures { result ≡ length (definition_bits definition) }
{
    match definition {
        SlotDefinition::Variable => MARK_BITS,
        SlotDefinition::Constant(_) => MARK_BITS + WORD_BITS,
    }
}

// The counts, the slots, the scans, the selects.
fn write_plan(plan: Plan, out: &mut [u8])
    requires { Counted plan.scan_count plan.slot_count plan.select_count }
    ensures { out.new ≡ bits_over out.old 0 (plan_bits plan) }
{
    write_counts(plan.scan_count, plan.slot_count, plan.select_count, out);
    let scans_at = write_slots(&plan.slots[..plan.slot_count], COUNTS_BITS, out);
    write_scans(&plan.scans[..plan.scan_count], scans_at, out);
    let selects_at = scans_at + SCAN_BITS * plan.scan_count;
    write_selects(&plan.select[..plan.select_count], selects_at, out);
}

// The three counts, from the first bit on.
fn write_counts(scan_count: usize, slot_count: usize, select_count: usize, out: &mut [u8])
    ensures { out.new ≡ bits_over out.old 0 (bits 6 scan_count ++ bits 7 slot_count ++ bits 6 select_count) }
{
    write_bits(scan_count as u64, SCAN_COUNT_BITS, 0, out);
    write_bits(slot_count as u64, SLOT_COUNT_BITS, SCAN_COUNT_BITS, out);
    write_bits(
        select_count as u64,
        SELECT_COUNT_BITS,
        SCAN_COUNT_BITS + SLOT_COUNT_BITS,
        out,
    );
}

// The slots; it answers the bit behind them.
fn write_slots(slots: &[SlotRecord], start: usize, out: &mut [u8]) -> usize
    requires { (length slots.now ≤ max_slots) × (start + 65 * length slots.now < 2 ^ 64) }
    ensures value { result ≡ start + length (laid slot_bits slots.now) }
    ensures out_after { out.new ≡ bits_over out.old start (laid slot_bits slots.now) }
{
    let mut at = start;
    for slot in slots {
        write_definition(slot.definition, at, out);
        at += count_slot(slot.definition);
    }
    at
}

// One bit for constant, and then its value if it is one.
fn write_definition(definition: SlotDefinition, at: usize, out: &mut [u8])
    requires { at + length (definition_bits definition) < 2 ^ 64 }
    ensures { out.new ≡ bits_over out.old at (definition_bits definition) }
{
    match definition {
        SlotDefinition::Variable => write_bits(0, MARK_BITS, at, out),
        SlotDefinition::Constant(value) => write_constant(value, at, out),
    }
}

fn write_constant(value: u64, at: usize, out: &mut [u8])
    requires { at + 65 < 2 ^ 64 }
    ensures { out.new ≡ bits_over out.old at (definition_bits (Constant value)) }
{
    write_bits(1, MARK_BITS, at, out);
    write_bits(value, WORD_BITS, at + MARK_BITS, out);
}

// The scans, in scan order.
fn write_scans(scans: &[Scan], start: usize, out: &mut [u8])
    requires { (length scans.now ≤ max_scans) × (start + 82 * length scans.now < 2 ^ 64) }
    ensures { out.new ≡ bits_over out.old start (laid scan_bits scans.now) }
{
    for (i_scan, scan) in scans.iter().enumerate() {
        write_scan(*scan, start + SCAN_BITS * i_scan, out);
    }
}

// Index, flow, entity, attribute, value.
fn write_scan(scan: Scan, at: usize, out: &mut [u8])
    requires { at + 82 < 2 ^ 64 }
    ensures { out.new ≡ bits_over out.old at (scan_bits scan) }
{
    let entity = at + CODE_BITS + CODE_BITS;
    let attribute = entity + SLOT_BITS;
    write_bits(plan::index_code(scan.index), CODE_BITS, at, out);
    write_bits(plan::flow_code(scan.flow), CODE_BITS, at + CODE_BITS, out);
    write_bits(u64::from(scan.entity.0), SLOT_BITS, entity, out);
    write_bits(scan.attribute.0, WORD_BITS, attribute, out);
    write_bits(
        u64::from(scan.value.0),
        SLOT_BITS,
        attribute + WORD_BITS,
        out,
    );
}

// The selects, in select order.
fn write_selects(select: &[Slot], start: usize, out: &mut [u8])
    requires { (length select.now ≤ max_selects) × (start + 7 * length select.now < 2 ^ 64) }
    ensures { out.new ≡ bits_over out.old start (laid select_bits select.now) }
{
    for (i, slot) in select.iter().enumerate() {
        write_bits(u64::from(slot.0), SLOT_BITS, start + SLOT_BITS * i, out);
    }
}
