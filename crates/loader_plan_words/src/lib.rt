// A plan written as words, as crate `loader_words` reads it; and of a plan that was stepped, the words that a step changes.
#![tactic(auto)]

ghost use Rattle.std.specs.Prelude.{◌≡◌, ◌+◌, ◌≤◌, length, take};
ghost use Rattle.loader_words.specs.Words.{scans_at, slots_at, select_at, plan_words, scan_words, slot_words};
ghost use Rattle.lists.specs.Laid.{laid};
ghost use Rattle.loader_plan_words.specs.Write.{constant_word, value_word, words_of_scan, words_of_slot, words_of_select, words_of_plan, put_at, with_indexes};

use capacity::{MAX_SCANS, MAX_SELECTS, MAX_SLOTS};
use loader_words::{
    PLAN_WORDS, SCAN_ATTRIBUTE, SCAN_COUNT_AT, SCAN_ENTITY, SCAN_FLOW, SCAN_VALUE, SCAN_WORDS,
    SCANS_AT, SELECT_AT, SELECT_COUNT_AT, SLOT_COUNT_AT, SLOT_VALUE, SLOT_WORDS, SLOTS_AT,
};
use plan::{Plan, Scan, Slot, SlotDefinition, SlotRecord};

// The words of a plan.
pub fn words_of_plan(plan: Plan) -> [u64; PLAN_WORDS]
    ensures { result ≡ words_of_plan plan }
{
    let mut words = [0u64; PLAN_WORDS];
    words[SCAN_COUNT_AT] = plan.scan_count as u64;
    words[SLOT_COUNT_AT] = plan.slot_count as u64;
    words[SELECT_COUNT_AT] = plan.select_count as u64;
    write_scans(&plan.scans, &mut words);
    write_slots(&plan.slots, &mut words);
    write_select(&plan.select, &mut words);
    words
}

// Write the indexes of the scans that count over those of a plan's words. Every other word stays, whatever it says: no plan is read from
// it and written back. A count past the array is that of all of it.
pub fn write_indexes(scans: [Scan; MAX_SCANS], scan_count: usize, words: &mut [u64; PLAN_WORDS])
    ensures { words.new ≡ with_indexes (take scan_count scans) 0 words.old }
{
    for (i, scan) in scans[..scan_count.min(MAX_SCANS)].iter().enumerate() {
        words[SCANS_AT + SCAN_WORDS * i] = plan::index_code(scan.index);
    }
}

// Three loops alike: one function for all would have to say of the function for one record what it writes, which is longer than a loop.
fn write_scans(scans: &[Scan; MAX_SCANS], words: &mut [u64])
    requires { length words.old ≡ plan_words }
    ensures { words.new ≡ put_at scans_at (laid words_of_scan scans.now) words.old }
{
    for (i, scan) in scans.iter().enumerate() {
        write_scan(*scan, SCANS_AT + SCAN_WORDS * i, words);
    }
}

fn write_slots(slots: &[SlotRecord; MAX_SLOTS], words: &mut [u64])
    requires { length words.old ≡ plan_words }
    ensures { words.new ≡ put_at slots_at (laid words_of_slot slots.now) words.old }
{
    for (i, slot) in slots.iter().enumerate() {
        write_slot(*slot, SLOTS_AT + SLOT_WORDS * i, words);
    }
}

fn write_select(select: &[Slot; MAX_SELECTS], words: &mut [u64])
    requires { length words.old ≡ plan_words }
    ensures { words.new ≡ put_at select_at (laid words_of_select select.now) words.old }
{
    for (i, slot) in select.iter().enumerate() {
        write_selected(*slot, SELECT_AT + i, words);
    }
}

// Write a scan's words, from `at` on; a slot's; a select's.
fn write_scan(scan: Scan, at: usize, words: &mut [u64])
    requires { at + scan_words ≤ length words.old }
    ensures { words.new ≡ put_at at (words_of_scan scan) words.old }
{
    words[at] = plan::index_code(scan.index);
    words[at + SCAN_FLOW] = plan::flow_code(scan.flow);
    words[at + SCAN_ENTITY] = scan.entity.0 as u64;
    words[at + SCAN_ATTRIBUTE] = scan.attribute.0;
    words[at + SCAN_VALUE] = scan.value.0 as u64;
}

fn write_slot(slot: SlotRecord, at: usize, words: &mut [u64])
    requires { at + slot_words ≤ length words.old }
    ensures { words.new ≡ put_at at (words_of_slot slot) words.old }
{
    words[at] = constant_word(slot.definition);
    words[at + SLOT_VALUE] = value_word(slot.definition);
}

fn write_selected(slot: Slot, at: usize, words: &mut [u64])
    requires { at + 1 ≤ length words.old }
    ensures { words.new ≡ put_at at (words_of_select slot) words.old }
{
    words[at] = slot.0 as u64;
}

// The two words of a slot's definition. Crate `eval` has the second too, but neither crate stands on the other.
fn constant_word(definition: SlotDefinition) -> u64
    ensures { result ≡ constant_word definition }
{
    match definition {
        SlotDefinition::Variable => 0,
        SlotDefinition::Constant(_) => 1,
    }
}

fn value_word(definition: SlotDefinition) -> u64
    ensures { result ≡ value_word definition }
{
    match definition {
        SlotDefinition::Variable => 0,
        SlotDefinition::Constant(value) => value,
    }
}
