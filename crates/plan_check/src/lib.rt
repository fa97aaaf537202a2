// Noblit -- An immutable append-only database
// Copyright 2020 Ruud van Asseldonk

// Licensed under the Apache License, Version 2.0 (the "License");
// you may not use this file except in compliance with the License.
// A copy of the License has been included in the root of the repository.

// Port of `Plan::check_invariants` of src/plan.rs to Rattle, changed: what the Rust asserts is refused with a number, a scan's
// slots are tested against the number of slots and not of scans, and the record says of a slot only whether it is set.
#![tactic(auto)]

ghost use Rattle.std.specs.Prelude.{◌≡◌, ◌≤◌, length, OnOk};
ghost use Rattle.capacity.specs.Capacity.{max_slots};
ghost use Rattle.plan.specs.Plan.{first_access, second_access, is_constant};
ghost use Rattle.plan_check.specs.Check.{initialization_fault, selects_fault, check_of};
ghost use Rattle.plan_check.specs.Record.{state_of, constants_record, access_record, scan_record, slot_fault_in, scan_fault_in, scans_fault_in, unset_fault_in};

use capacity::MAX_SLOTS;
use plan::{Access, Flow, Plan, Scan, Slot, SlotDefinition, SlotRecord};
use refusal::{Rule, Verdict, refuse};

// For every slot, the check stores whether it is initialized.
#[derive(Clone, Copy)]
enum Initialization {
    // Not initialized yet, safe to write, unsafe to read.
    Unset,
    // Initialized to a constant value, or by a scan.
    Set,
}

// Check all invariants by calling all `check_*` functions: that nothing is wrong, or the first refusal.
#[tactic(auto, unfolding(crate::specs::Check::check_of), using(crate::proofs::Promises::counted))]
pub fn check_invariants(plan: Plan) -> Verdict
    ensures { result ≡ check_of plan }
{
    plan::check_counts(plan.scan_count, plan.slot_count, plan.select_count)?;
    if plan.select_count == 0 {
        return refuse(Rule::NoSelects, 0);
    }
    let slots = &plan.slots[..plan.slot_count];
    check_slot_initialization(&plan.scans[..plan.scan_count], slots)?;
    check_selects(&plan.select[..plan.select_count], slots)
}

// Check invariants about slot initialization.
//
// * Check that the slots referenced by scans are all in bounds.
// * Check that scans only read from slots that were written to by earlier scans.
// * Check that every slot is written to by at least one scan or constant.
// * Check that every slot is written to by at most one scan or constant.
#[tactic(auto, using(crate::proofs::Tracks::decided))]
fn check_slot_initialization(scans: &[Scan], slots: &[SlotRecord]) -> Verdict
    requires { length slots.now ≤ max_slots }
    ensures { result ≡ initialization_fault slots.now scans.now }
{
    let mut all_slots = [Initialization::Unset; MAX_SLOTS];
    let initialization = &mut all_slots[..slots.len()];
    begin_record(initialization, slots);
    check_scans(initialization, scans)
}

// The record before the first scan: constants are set.
fn begin_record(initialization: &mut [Initialization], slots: &[SlotRecord])
    requires { length initialization.old ≡ length slots.now }
    ensures { initialization.new ≡ constants_record slots.now }
{
    for (i_slot, slot) in slots.iter().enumerate() {
        initialization[i_slot] = initialization_of(slot.definition);
    }
}

fn initialization_of(definition: SlotDefinition) -> Initialization
    ensures { result ≡ state_of (is_constant definition) }
{
    match definition {
        SlotDefinition::Variable => Initialization::Unset,
        SlotDefinition::Constant(_) => Initialization::Set,
    }
}

// The scans in order, from a record on, and then the slots that stay unset.
fn check_scans(initialization: &mut [Initialization], scans: &[Scan]) -> Verdict
    ensures { result ≡ scans_fault_in (length initialization.old) initialization.old scans.now 0 }
{
    for (i_scan, scan) in scans.iter().enumerate() {
        check_scan(initialization, scan, i_scan)?;
    }
    check_all_set(initialization)
}

// 21; then for each of the scan's two slots in index order 22, then 23 or 24. The record is then that after the scan.
#[tactic(auto, unfolding(crate::specs::Record::scan_fault_in, crate::specs::Record::scan_record))]
fn check_scan(initialization: &mut [Initialization], scan: &Scan, i_scan: usize) -> Verdict
    ensures fault { result ≡ scan_fault_in (length initialization.old) initialization.old scan.now i_scan }
    ensures record_after { OnOk result (initialization.new ≡ scan_record initialization.old scan.now) }
{
    if plan::is_out_out_eavt(*scan) {
        return refuse(Rule::OutOutEavt, i_scan);
    }
    let [first, second] = scan.slots();
    check_slot(initialization, first_access(scan.flow), first, i_scan)?;
    check_slot(initialization, second_access(scan.flow), second, i_scan)
}

// Out-out writes both slots, in-out reads the first and writes the second, in-in reads both.
fn first_access(flow: Flow) -> Access
    ensures { result ≡ first_access flow }
{
    match flow {
        Flow::OutOut => Access::Writes,
        Flow::InOut | Flow::InIn => Access::Reads,
    }
}

fn second_access(flow: Flow) -> Access
    ensures { result ≡ second_access flow }
{
    match flow {
        Flow::OutOut | Flow::InOut => Access::Writes,
        Flow::InIn => Access::Reads,
    }
}

// 22, then 23 or 24, for one slot of a scan: writes a set slot, or reads an unset one. A slot that is written is then set.
#[tactic(auto, using(crate::proofs::Record::slots))]
fn check_slot(
    initialization: &mut [Initialization],
    access: Access,
    slot: Slot,
    i_scan: usize,
) -> Verdict
    ensures fault { result ≡ slot_fault_in (length initialization.old) initialization.old access slot i_scan }
    ensures record_after { OnOk result (initialization.new ≡ access_record initialization.old access slot) }
{
    let i_slot = slot.0 as usize;
    // No `get`: the record is read and written there, and after `get_mut` the proof does not know what it holds.
    if initialization.len() <= i_slot {
        return refuse(Rule::NoSuchSlot, i_scan);
    }
    match (access, initialization[i_slot]) {
        (Access::Reads, Initialization::Set) => Ok(()),
        (Access::Reads, Initialization::Unset) => refuse(Rule::ReadsUnsetSlot, i_scan),
        (Access::Writes, Initialization::Set) => refuse(Rule::WritesSetSlot, i_scan),
        (Access::Writes, Initialization::Unset) => {
            initialization[i_slot] = Initialization::Set;
            Ok(())
        }
    }
}

// 25: the lowest slot that no constant and no scan sets.
fn check_all_set(initialization: &[Initialization]) -> Verdict
    ensures { result ≡ unset_fault_in initialization.now 0 }
{
    let unset = initialization
        .iter()
        .position(|slot| matches!(slot, Initialization::Unset));
    match unset {
        Some(i_slot) => refuse(Rule::SlotNeverSet, i_slot),
        None => Ok(()),
    }
}

// 26 and 29: the selects only reference slots that exist, and that are variables.
#[tactic(auto, using(crate::proofs::Selects::selects))]
fn check_selects(select: &[Slot], slots: &[SlotRecord]) -> Verdict
    ensures { result ≡ selects_fault slots.now select.now 0 }
{
    for (i_select, slot) in select.iter().enumerate() {
        let Some(record) = slots.get(slot.0 as usize) else {
            return refuse(Rule::NoSuchSelect, i_select);
        };
        // It is structurally impossible for queries to select a constant: such a plan did not come from the planner.
        if plan::is_constant(record.definition) {
            return refuse(Rule::ConstantSelected, i_select);
        }
    }
    Ok(())
}
