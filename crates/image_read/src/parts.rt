// The slots, the scans and the selects of an image: one, and as many as a count says.
ghost use Rattle.std.specs.Prelude.{◌≤◌};
ghost use Rattle.capacity.specs.Capacity.{max_scans, max_slots, max_selects};
ghost use Rattle.plan.specs.Plan.{zero_scan, variable_slot, zero_slot};
ghost use Rattle.image.specs.Read.{code as Image·code, slot as Image·slot, scan as Image·scan, select as Image·select};
ghost use Rattle.image_read.specs.Reads.{Within, Reads, ReadsMany};

use crate::fields::{Cursor, read_field};
use capacity::{MAX_SCANS, MAX_SELECTS, MAX_SLOTS};
use datom::Aid;
use image::{CODE_BITS, MARK_BITS, SLOT_BITS, WORD_BITS};
use plan::{Scan, Slot, SlotDefinition, SlotRecord, VARIABLE_SLOT, ZERO_SCAN};
use refusal::{Refusal, Rule, refuse};

// The code that no index and no flow has. With `Index::try_from` and `Flow::try_from` 61 would stand in two places, so the code is looked at.
const NO_CODE: u64 = 3;

// As many slots, scans or selects as a count says; past these stands what past a plan's counts does. Three loops alike: one function
// for all would have to say of the function for one record what it reads, which is longer than a loop.
pub(crate) fn read_slots(
    bytes: &[u8],
    from: Cursor,
    count: usize,
) -> Result<([SlotRecord; MAX_SLOTS], Cursor), Refusal>
    requires { Within bytes.now from × (count ≤ max_slots) }
    ensures { ReadsMany Image·slot variable_slot max_slots count bytes.now from result }
{
    let mut slots = [VARIABLE_SLOT; MAX_SLOTS];
    let mut at = from;
    for i in 0..count {
        let (slot, behind) = read_slot(bytes, at)?;
        slots[i] = slot;
        at = behind;
    }
    Ok((slots, at))
}

pub(crate) fn read_scans(
    bytes: &[u8],
    from: Cursor,
    count: usize,
) -> Result<([Scan; MAX_SCANS], Cursor), Refusal>
    requires { Within bytes.now from × (count ≤ max_scans) }
    ensures { ReadsMany Image·scan zero_scan max_scans count bytes.now from result }
{
    let mut scans = [ZERO_SCAN; MAX_SCANS];
    let mut at = from;
    for i in 0..count {
        let (scan, behind) = read_scan(bytes, at)?;
        scans[i] = scan;
        at = behind;
    }
    Ok((scans, at))
}

pub(crate) fn read_selects(
    bytes: &[u8],
    from: Cursor,
    count: usize,
) -> Result<([Slot; MAX_SELECTS], Cursor), Refusal>
    requires { Within bytes.now from × (count ≤ max_selects) }
    ensures { ReadsMany Image·select zero_slot max_selects count bytes.now from result }
{
    let mut select = [Slot(0); MAX_SELECTS];
    let mut at = from;
    for i in 0..count {
        let (slot, behind) = read_select(bytes, at)?;
        select[i] = slot;
        at = behind;
    }
    Ok((select, at))
}

// A slot: one bit for constant, and then the constant if it is one.
fn read_slot(bytes: &[u8], at: Cursor) -> Result<(SlotRecord, Cursor), Refusal>
    requires { Within bytes.now at }
    ensures { Reads Image·slot bytes.now at result }
{
    let (mark, behind) = read_field(bytes, at, MARK_BITS)?;
    if mark == 0 {
        return Ok((VARIABLE_SLOT, behind));
    }
    let (constant, end) = read_field(bytes, behind, WORD_BITS)?;
    let slot = SlotRecord {
        definition: SlotDefinition::Constant(constant),
    };
    Ok((slot, end))
}

// A scan: index, flow, entity, attribute, value.
fn read_scan(bytes: &[u8], at: Cursor) -> Result<(Scan, Cursor), Refusal>
    requires { Within bytes.now at }
    ensures { Reads Image·scan bytes.now at result }
{
    let (index, at) = read_code(bytes, at)?;
    let (flow, at) = read_code(bytes, at)?;
    let (entity, at) = read_field(bytes, at, SLOT_BITS)?;
    let (attribute, at) = read_field(bytes, at, WORD_BITS)?;
    let (value, end) = read_field(bytes, at, SLOT_BITS)?;
    let scan = Scan {
        index: plan::index_of_code(index),
        flow: plan::flow_of_code(flow),
        entity: Slot(entity as u16),
        attribute: Aid(attribute),
        value: Slot(value as u16),
    };
    Ok((scan, end))
}

// A select: a slot's number.
fn read_select(bytes: &[u8], at: Cursor) -> Result<(Slot, Cursor), Refusal>
    requires { Within bytes.now at }
    ensures { Reads Image·select bytes.now at result }
{
    let (slot, end) = read_field(bytes, at, SLOT_BITS)?;
    Ok((Slot(slot as u16), end))
}

// The code of an index or of a flow. 61: a code 3.
fn read_code(bytes: &[u8], at: Cursor) -> Result<(u64, Cursor), Refusal>
    requires { Within bytes.now at }
    ensures { Reads Image·code bytes.now at result }
{
    let (code, end) = read_field(bytes, at, CODE_BITS)?;
    if code == NO_CODE {
        return refuse(Rule::NoSuchCode, at.byte);
    }
    Ok((code, end))
}
