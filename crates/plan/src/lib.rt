// Noblit -- An immutable append-only database
// Copyright 2020 Ruud van Asseldonk

// Licensed under the Apache License, Version 2.0 (the "License");
// you may not use this file except in compliance with the License.
// A copy of the License has been included in the root of the repository.

// Port of src/plan.rs to Rattle, changed: vectors are arrays with counts, a slot definition stands in a record and holds no
// name, and what the Rust asserts is refused with a number. The check, the cost and the text are crates of their own (`plan_check`, `cost`, `plan_text`).

// Defines query plans.
#![tactic(auto)]

ghost use Rattle.std.specs.Prelude.{◌≡◌};
ghost use Rattle.plan.specs.Codes.{index_code, flow_code, index_of_code, flow_of_code, Decodes};
ghost use Rattle.plan.specs.Plan.{slots_in_order, out_out_eavt, is_constant, entity_value_flow, empty_plan, counts_fault, out_out_fault, scan_flows_fault, flows_fault};

use capacity::{MAX_SCANS, MAX_SELECTS, MAX_SLOTS};
use datom::Aid;
use refusal::{Rule, Verdict, refuse};

// The index of a slot.
//
// A slot stores the current value of a variable or constant during evaluation.
#[derive(Clone, Copy)]
pub struct Slot(pub u16);

// The index to scan.
//
// The numbers are those that stand for the indexes in words.
#[derive(Clone, Copy, Debug, PartialEq, Eq)]
pub enum Index {
    Aevt = 0,
    Avet = 1,
    Eavt = 2,
}

// The same numbers, by name.
pub const AEVT: u64 = Index::Aevt as u64;

pub const AVET: u64 = Index::Avet as u64;

pub const EAVT: u64 = Index::Eavt as u64;

// Which slots to fill, and which to read.
//
// An index stores facts ordered on various permutations of (entity, attribute, value). In queries, the attribute is always
// known ahead of time. This leaves two slots, *entity* and *value*. Depending on the index and flow, these can be inputs or
// outputs.
//
// With the index, we can do three things:
//
// * Scan the full index. During the scan, we can fill both the *entity* and *value* slot at once.
//
// * Scan a part of the index, constrained by the input. We read the input slot, and write to the output slot, as follows:
//
//   | Index | In     | Out    |
//   |-------|--------|--------|
//   | Aevt  | Entity | Value  |
//   | Avet  | Value  | Entity |
//   | Eavt  | Entity | Value  |
//
// * Test the existence of known facts. We read both the *entity* and *value*.
//
// The number of a flow is how many of a scan's two slots are inputs.
#[derive(Clone, Copy, Debug, PartialEq, Eq)]
pub enum Flow {
    OutOut = 0,
    InOut = 1,
    InIn = 2,
}

// The same numbers, by name.
pub const OUT_OUT: u64 = Flow::OutOut as u64;

pub const IN_OUT: u64 = Flow::InOut as u64;

pub const IN_IN: u64 = Flow::InIn as u64;

// The combination of an index and flow.
//
// While there are nine combinations of flow and index (one of which is invalid), there are only four possible entity-value
// flows: either can be an input or output. Evaluation is mostly concerned with this entity-value flow, and what particular
// index is producing the entity and value is not relevant.
#[derive(Clone, Copy)]
pub enum EntityValueFlow {
    OutOut,
    InOut,
    OutIn,
    InIn,
}

// A scan over an index.
//
// A scan may fill zero, one, or two variables depending on its kind. Depending on the flow and index used, the slots
// referenced by the entity and value can be inputs or outputs.
#[derive(Clone, Copy)]
pub struct Scan {
    pub index: Index,
    pub flow: Flow,
    pub entity: Slot,
    pub attribute: Aid,
    pub value: Slot,
}

// Defines how a slot is filled during evaluation.
//
// A slot can contain either a constant, or the current value for a variable. Constants are filled once at the start of
// evaluation; variable slots can be assigned new values at every iteration.
//
// No `Option`: the definitions name the two, and a variable is not a constant that is missing.
#[derive(Clone, Copy)]
pub enum SlotDefinition {
    Variable,
    Constant(u64),
}

// A slot of a plan.
#[derive(Clone, Copy)]
pub struct SlotRecord {
    pub definition: SlotDefinition,
}

// A query plan.
//
// Where a query specifies *what* to find, the query plan specifies *how* to find it. A query plan defines a number of slots,
// that get filled with values. A slot definition determines how the slot is filled: either during evaluation, by a scan, or
// at the start of evaluation, with a constant. A query is executed as a number of nested loops, one for each scan. Scans can
// read from slots that were written to by an earlier scan (one with a lower index). The innermost loop yields the result of
// the query.
//
// Each array has its count beside it: there is no heap, and a damaged count must be representable, as it is refused (20).
#[derive(Clone, Copy)]
pub struct Plan {
    // The scans that fill the variable slots.
    //
    // Scans are evaluated as nested loops. The scan with the lowest index becomes the outermost loop, the scan with the
    // highest index becomes the innermost loop.
    pub scans: [Scan; MAX_SCANS],
    pub scan_count: usize,

    // The slots that are needed during query evaluation.
    //
    // Slots match the variables and constants in the query that the plan was derived from. Variable *i* in the query resides
    // at slot *i* in the plan. The remaining slots are used for constants that occur in the query, in their order of
    // occurrence.
    pub slots: [SlotRecord; MAX_SLOTS],
    pub slot_count: usize,

    // The slots to yield the values from in every iteration.
    //
    // The selects are in the select order of the query; the indices match.
    pub select: [Slot; MAX_SELECTS],
    pub select_count: usize,
}

// What stands past the counts of every plan made here, and of every array of scans or slots.
pub const ZERO_SCAN: Scan = Scan {
    index: Index::Aevt,
    flow: Flow::OutOut,
    entity: Slot(0),
    attribute: Aid(0),
    value: Slot(0),
};

pub const VARIABLE_SLOT: SlotRecord = SlotRecord {
    definition: SlotDefinition::Variable,
};

// What a scan does with one of its slots.
#[derive(Clone, Copy)]
pub enum Access {
    Reads,
    Writes,
}

impl Scan {
    // The referenced slots in index order.
    pub fn slots(self) -> [Slot; 2]
        ensures { result ≡ slots_in_order self }
    {
        match self.index {
            Index::Aevt | Index::Eavt => [self.entity, self.value],
            Index::Avet => [self.value, self.entity],
        }
    }

    // Whether entity and value are inputs or outputs.
    //
    // Using eavt for out-out is invalid, and the plan check refuses it; what the flow says stands here all the same.
    pub fn entity_value_flow(self) -> EntityValueFlow
        ensures { result ≡ entity_value_flow self.flow self.index }
    {
        match (self.flow, self.index) {
            (Flow::OutOut, _) => EntityValueFlow::OutOut,
            (Flow::InOut, Index::Avet) => EntityValueFlow::OutIn,
            (Flow::InOut, _) => EntityValueFlow::InOut,
            (Flow::InIn, _) => EntityValueFlow::InIn,
        }
    }
}

impl Plan {
    // The plan of no scans, slots and selects: what stands past the counts of every plan made here.
    pub fn empty() -> Plan
        ensures { result ≡ empty_plan }
    {
        Plan {
            scans: [ZERO_SCAN; MAX_SCANS],
            scan_count: 0,
            slots: [VARIABLE_SLOT; MAX_SLOTS],
            slot_count: 0,
            select: [Slot(0); MAX_SELECTS],
            select_count: 0,
        }
    }
}

// A number that no index has, or no flow.
#[derive(Clone, Copy, Debug, PartialEq, Eq)]
pub struct UnknownCode(pub u64);

impl TryFrom<u64> for Index {
    type Error = UnknownCode;

    ghost try_from_gives = { Decodes index_code };

    fn try_from(code: u64) -> Result<Self, UnknownCode> {
        match code {
            0 => Ok(Index::Aevt),
            1 => Ok(Index::Avet),
            2 => Ok(Index::Eavt),
            _ => Err(UnknownCode(code)),
        }
    }
}

impl TryFrom<u64> for Flow {
    type Error = UnknownCode;

    ghost try_from_gives = { Decodes flow_code };

    fn try_from(code: u64) -> Result<Self, UnknownCode> {
        match code {
            0 => Ok(Flow::OutOut),
            1 => Ok(Flow::InOut),
            2 => Ok(Flow::InIn),
            _ => Err(UnknownCode(code)),
        }
    }
}

// The number of an index, and of a flow. Other crates, and their contracts, call these and the two below by their names.
pub fn index_code(index: Index) -> u64
    ensures { result ≡ index_code index }
{
    index as u64
}

pub fn flow_code(flow: Flow) -> u64
    ensures { result ≡ flow_code flow }
{
    flow as u64
}

// The index, and the flow, of a number: one past the last is read as the last.
pub fn index_of_code(code: u64) -> Index
    ensures { result ≡ index_of_code code }
{
    Index::try_from(code).unwrap_or(Index::Eavt)
}

pub fn flow_of_code(code: u64) -> Flow
    ensures { result ≡ flow_of_code code }
{
    Flow::try_from(code).unwrap_or(Flow::InIn)
}

// 20: a count over its capacity. Every call over a plan starts with it.
#[tactic(auto, unfolding(crate::specs::Plan::counts_fault))]
pub fn check_counts(scan_count: usize, slot_count: usize, select_count: usize) -> Verdict
    ensures { result ≡ counts_fault scan_count slot_count select_count }
{
    if MAX_SLOTS < slot_count || MAX_SCANS < scan_count || MAX_SELECTS < select_count {
        return refuse(Rule::PlanCounts, 0);
    }
    Ok(())
}

// A constant starts set; a variable is set by a scan.
pub fn is_constant(definition: SlotDefinition) -> bool
    ensures { result ≡ is_constant definition }
{
    matches!(definition, SlotDefinition::Constant(_))
}

// 21: whether a scan is out-out over eavt.
pub fn is_out_out_eavt(scan: Scan) -> bool
    ensures { result ≡ out_out_eavt scan.flow scan.index }
{
    scan.flow == Flow::OutOut && scan.index == Index::Eavt
}

// What `cost` and `next` ask of a plan: 20, then 21 at the lowest such scan.
#[tactic(auto, using(crate::proofs::Counts::flows))]
pub fn check_flows(plan: Plan) -> Verdict
    ensures { result ≡ flows_fault plan }
{
    check_counts(plan.scan_count, plan.slot_count, plan.select_count)?;
    check_scan_flows(plan.scans, plan.scan_count)
}

// The same of scans without a plan, of which the first `scan_count` count: not a slice, since a count past the array is refused.
#[tactic(auto, unfolding(crate::specs::Plan::scan_flows_fault))]
pub fn check_scan_flows(scans: [Scan; MAX_SCANS], scan_count: usize) -> Verdict
    ensures { result ≡ scan_flows_fault scans scan_count }
{
    if MAX_SCANS < scan_count {
        return refuse(Rule::PlanCounts, 0);
    }
    check_flows_of(&scans[..scan_count])
}

// 21 at the lowest scan that is out-out over eavt.
pub fn check_flows_of(scans: &[Scan]) -> Verdict
    ensures { result ≡ out_out_fault scans.now 0 }
{
    match scans.iter().position(|scan| is_out_out_eavt(*scan)) {
        Some(i_scan) => refuse(Rule::OutOutEavt, i_scan),
        None => Ok(()),
    }
}
