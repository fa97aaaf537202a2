// Noblit -- An immutable append-only database
// Copyright 2020 Ruud van Asseldonk

// Licensed under the Apache License, Version 2.0 (the "License");
// you may not use this file except in compliance with the License.
// A copy of the License has been included in the root of the repository.

// Port of `Evaluator::new` of src/eval.rs to Rattle, changed: the plan is written out as words, values and numbers, so that no struct is
// copied at a row, and the state stands in arrays.
ghost use Rattle.std.specs.Prelude.{◌≡◌, ◌+◌, ◌*◌, ◌≤◌, ◌<◌, [], ◌∷◌, ◌++◌, length, take, drop, replicate};
ghost use Rattle.capacity.specs.Capacity.{max_scans, max_slots, max_selects};
ghost use Rattle.plan.specs.Plan.{in_order};
ghost use Rattle.visits.specs.Visits.{lent, tables_of, start_value, visits};
ghost use Rattle.visits.specs.Pending.{iter_words};
ghost use Rattle.eval.specs.Words.{laid_words, words_of, scans_in, Laid};
ghost use Rattle.eval.specs.Steps.{Ascend};
ghost use Rattle.eval.specs.Next.{Named, rows_at, Shows};
ghost use Rattle.eval.specs.Evaluation.{values_of, numbers_of, Evaluable, Roomy, RoomFor, WrittenOut, ShowsRows};

use super::rows::Shown;
use super::walk::{ITER_WORDS, LAID_WORDS, Nest};
use capacity::{MAX_SCANS, MAX_SELECTS, MAX_SLOTS};
use plan::{Index, Plan, Scan, Slot, SlotDefinition, SlotRecord};
use tables::Tables;

// The words of as many scans, and of as many iterators, as a plan can have.
const MAX_WORDS: usize = LAID_WORDS * MAX_SCANS;

const MAX_ITERS: usize = ITER_WORDS * MAX_SCANS;

// Write the rows of a plan that passed the check over sorted tables. The state stands in this function's frame.
pub(crate) fn evaluate_checked(plan: Plan, tables: &Tables, from: u64, rows: &mut [u64]) -> Shown
    requires { Evaluable plan (lent tables.now) }
    ensures { ShowsRows plan (lent tables.now) from rows.old result.count result.more rows.new }
{
    let mut words = [0u64; MAX_WORDS];
    let mut initial = [0u64; MAX_SLOTS];
    let mut selects = [0u64; MAX_SELECTS];
    let mut iters = [0usize; MAX_ITERS];
    let mut slots = [0u64; MAX_SLOTS];
    evaluate_in(
        plan,
        tables,
        from,
        &mut words,
        &mut initial,
        &mut selects,
        &mut iters,
        &mut slots,
        rows,
    )
}

// The plan is written out as words, values and numbers, so that no struct is copied at a row. The state is lent: what it holds
// does not matter.
fn evaluate_in(
    plan: Plan,
    tables: &Tables,
    from: u64,
    words: &mut [u64],
    initial: &mut [u64],
    selects: &mut [u64],
    iters: &mut [usize],
    slots: &mut [u64],
    rows: &mut [u64],
) -> Shown
    requires evaluable { Evaluable plan (lent tables.now) }
    requires roomy { Roomy (length words.old) (length initial.old) (length selects.old) (length iters.old) (length slots.old) }
    ensures { ShowsRows plan (lent tables.now) from rows.old result.count result.more rows.new }
{
    write_plan(plan, words, initial, selects, slots);
    let word_count = LAID_WORDS * plan.scan_count;
    let slot_count = plan.slot_count;
    let select_count = plan.select_count;
    let nest = Nest {
        words: &words[..word_count],
        aevt: tables.aevt,
        avet: tables.avet,
        eavt: tables.eavt,
        initial: &initial[..slot_count],
    };
    run(
        from,
        &nest,
        &selects[..select_count],
        iters,
        &mut slots[..slot_count],
        rows,
    )
}

// Write the rows from number `from` on, as many as fit in the buffer. The state is lent: what the iterators hold does not matter.
fn run(
    from: u64,
    nest: &Nest,
    selects: &[u64],
    iters: &mut [usize],
    slots: &mut [u64],
    rows: &mut [u64],
) -> Shown
    requires nonzero { (0 < length (scans_in nest.now.words.now)) × (iter_words * length (scans_in nest.now.words.now) ≤ length iters.old) }
    requires slots_value { slots.old ≡ nest.now.initial.now }
    requires named { (Named selects.now (length slots.old)) × (0 < length selects.now) }
    ensures { let ts = tables_of nest.now.aevt.now nest.now.avet.now nest.now.eavt.now in
        Shows (rows_at ts (scans_in nest.now.words.now) nest.now.initial.now selects.now (visits ts (scans_in nest.now.words.now) nest.now.initial.now))
        (length selects.now) from rows.old result.count result.more rows.new }
{
    // At the start all iterators are empty, but the first: it is the only one that is not replenished when exhausted, so it needs
    // to be there already.
    iters.fill(0);
    let iter = super::walk::get_iter(0, nest.words, nest.table(nest.words[0]), slots);
    iters[0] = iter.position;
    iters[1] = iter.end;
    super::rows::show(from, nest, selects, iters, slots, rows)
}

// Write a plan out: its scans as words, what its slots hold before any scan, twice, and the numbers of its selects.
fn write_plan(
    plan: Plan,
    words: &mut [u64],
    initial: &mut [u64],
    selects: &mut [u64],
    slots: &mut [u64],
)
    requires { RoomFor plan (length words.old) (length initial.old) (length selects.old) (length slots.old) }
    ensures { WrittenOut plan words.new initial.new selects.new slots.new }
{
    let definitions = &plan.slots[..plan.slot_count];
    write_scans(&plan.scans[..plan.scan_count], words);
    write_slots(definitions, initial);
    write_slots(definitions, slots);
    write_selects(&plan.select[..plan.select_count], selects);
}

// Write the words of scans, one after the other.
fn write_scans(scans: &[Scan], words: &mut [u64])
    requires { laid_words * length scans.now ≤ length words.old }
    ensures { take (laid_words * length scans.now) words.new ≡ words_of scans.now }
{
    for (i, scan) in scans.iter().enumerate() {
        write_scan(*scan, LAID_WORDS * i, words);
    }
}

// Write a scan's words, from `at` on.
fn write_scan(scan: Scan, at: usize, words: &mut [u64])
    requires { at + laid_words ≤ length words.old }
    ensures { words.new ≡ take at words.old ++ words_of (scan ∷ []) ++ drop (at + laid_words) words.old }
{
    let [first, second] = scan.slots();
    words[at] = plan::index_code(scan.index);
    words[at + 1] = plan::flow_code(scan.flow);
    words[at + 2] = scan.attribute.0;
    words[at + 3] = u64::from(first.0);
    words[at + 4] = u64::from(second.0);
}

// Write what slots hold before any scan.
fn write_slots(slots: &[SlotRecord], values: &mut [u64])
    requires { length slots.now ≤ length values.old }
    ensures { take (length slots.now) values.new ≡ values_of slots.now }
{
    for (i, slot) in slots.iter().enumerate() {
        values[i] = value_of(slot.definition);
    }
}

// What a slot holds before any scan.
fn value_of(definition: SlotDefinition) -> u64
    ensures { result ≡ start_value definition }
{
    match definition {
        SlotDefinition::Variable => 0,
        SlotDefinition::Constant(value) => value,
    }
}

// Write the numbers of selected slots.
fn write_selects(select: &[Slot], selects: &mut [u64])
    requires { length select.now ≤ length selects.old }
    ensures { take (length select.now) selects.new ≡ numbers_of select.now }
{
    for (i, slot) in select.iter().enumerate() {
        selects[i] = u64::from(slot.0);
    }
}
