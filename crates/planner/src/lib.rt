// Noblit -- An immutable append-only database
// Copyright 2020 Ruud van Asseldonk

// Licensed under the Apache License, Version 2.0 (the "License");
// you may not use this file except in compliance with the License.
// A copy of the License has been included in the root of the repository.

// Port of src/planner.rs to Rattle, changed: vectors are arrays with counts, and the query is checked first and refused with a
// number. `next_scan` and `next` are in the crate `listing`.

// The planner translates queries into plans.
#![tactic(auto)]

ghost use Rattle.std.specs.Prelude.{◌≡◌, ◌+◌, ◌≤◌, ◌<◌, ◌^◌, map, true, false, get_or, set, length};
ghost use Rattle.refusal.specs.Verdict.{answer};
ghost use Rattle.capacity.specs.Capacity.{max_slots, max_selects};
ghost use Rattle.lists.specs.Padded.{padded};
ghost use Rattle.query_check.specs.Below.{ValueBelow, Below};
ghost use Rattle.plan.specs.Plan.{zero_slot, variable_slot};
ghost use Rattle.planner.specs.Refusals.{plan_fault};
ghost use Rattle.planner.specs.Planning.{slot_of, value_slot, scan_for, slots_for, initialized_of, plan_of};
ghost use Rattle.planner.specs.Record.{Plannable, is_value_set_in, binds_twice_in, scan_in, statement_record};

use capacity::{MAX_SCANS, MAX_SELECTS, MAX_SLOTS};
use datom::Aid;
use plan::{Flow, Index, Plan, Scan, Slot, SlotDefinition, SlotRecord, VARIABLE_SLOT, ZERO_SCAN};
use query::{Query, QueryValue, Statement, Var};
use refusal::{Refusal, Rule, Verdict, refuse};

// The scans that implement a query's statements, as many as these in an array (fixed memory, no heap), and how many slots they name.
#[derive(Drop)]
struct InitialScans {
    scans: [Scan; MAX_SCANS],
    slot_count: usize,
}

// Tracks which slots are already defined (those we can read from), and which slots still need to be initialized (those we need to plan).
//
// The query was checked first, so a variable's slot is in the record.
#[derive(Drop)]
struct SlotInitialized([bool; MAX_SLOTS]);

// Plan the query.
#[tactic(auto, unfolding(crate::specs::Planning::plan_of, crate::specs::Refusals::plan_fault))]
pub fn plan(query: Query) -> Result<Plan, Refusal>
    ensures { result ≡ answer (plan_of query).verdict (plan_of query).plan }
{
    query_check::check_query(query)?;
    let variables = query.variable_count as usize;
    let statements = &query.where_statements.items[..query.where_statements.count];
    let select = &query.select.items[..query.select.count];
    let InitialScans { scans, slot_count } = initialize_scans(variables, statements)?;
    Ok(Plan {
        scans,
        scan_count: query.where_statements.count,
        slots: initialize_slots(variables, statements),
        slot_count,
        select: select_slots(select),
        select_count: query.select.count,
    })
}

// Whether the query can be planned in the given order, or the first of 10 to 16.
#[tactic(auto, using(crate::proofs::Accepted::plannable_refused, crate::proofs::Accepted::plannable_fine))]
pub fn check_plannable(query: Query) -> Verdict
    ensures { result ≡ plan_fault query }
{
    plan(query)?;
    Ok(())
}

// Generate the initial scans to implement the query: a scan for every statement.
//
// For some statements, multiple index scans would be a valid way to implement the statement. In that case, we always choose the
// first one. Later calls to `next` can cycle through them to explore all possible plans.
fn initialize_scans(variables: usize, statements: &[Statement]) -> Result<InitialScans, Refusal>
    requires { Plannable variables (length statements.now) statements.now }
    ensures { let said = initialized_of variables statements.now in result ≡ answer said.verdict (record { scans = said.scans; slot_count = said.slot_count }) }
{
    let mut slot_initialized = SlotInitialized([false; MAX_SLOTS]);
    let mut scans = [ZERO_SCAN; MAX_SCANS];
    let mut slot_count = variables;
    for (i, statement) in statements.iter().enumerate() {
        if slot_initialized.binds_twice(statement) {
            return refuse(Rule::BoundTwice, i);
        }
        scans[i] = slot_initialized.scan_for(statement, slot_count);
        // The scan will initialize any uninitialized slots it references.
        slot_initialized.record_statement(statement);
        slot_count += query_check::constants_in(statement.value);
    }
    Ok(InitialScans { scans, slot_count })
}

impl SlotInitialized {
    fn is_set(&self, v: Var) -> bool
        requires { v.0 < max_slots }
        ensures { result ≡ get_or self.now.0 v.0 false }
    {
        self.0[v.0 as usize]
    }

    // Constants are initialized at the start, before any scans.
    fn is_value_set(&self, value: QueryValue) -> bool
        requires { ValueBelow max_slots value }
        ensures { result ≡ is_value_set_in self.now.0 value }
    {
        match value {
            QueryValue::Const(_) => true,
            QueryValue::Var(v) => self.is_set(v),
        }
    }

    // 16: whether entity and value are one variable, new in this statement.
    fn binds_twice(&self, statement: &Statement) -> bool
        requires { statement.now.entity.0 < max_slots }
        ensures { result ≡ binds_twice_in self.now.0 statement.now }
    {
        statement.value == QueryValue::Var(statement.entity) && !self.is_set(statement.entity)
    }

    // Depending on what slots are initialized already, various index-flow combinations can be used to fill the remaining slots. When
    // there are multiple indexes that could fill the slot, we pick the first one, and later on, iterating plans will explore
    // alternatives.
    #[tactic(auto, unfolding(crate::specs::Record::scan_in))]
    fn scan_for(&self, statement: &Statement, slot_count: usize) -> Scan
        requires { (Below max_slots statement.now) × (slot_count < 2 ^ 16) }
        ensures { result ≡ scan_in self.now.0 statement.now slot_count }
    {
        first_scan(
            self.is_set(statement.entity),
            self.is_value_set(statement.value),
            Slot(statement.entity.0),
            statement.attribute,
            value_slot(statement.value, slot_count),
        )
    }

    fn record(&mut self, v: Var)
        requires { v.0 < max_slots }
        ensures { self.new.0 ≡ set self.old.0 v.0 true }
    {
        self.0[v.0 as usize] = true;
    }

    #[tactic(auto, unfolding(crate::specs::Record::statement_record))]
    fn record_statement(&mut self, statement: &Statement)
        requires { Below max_slots statement.now }
        ensures { self.new.0 ≡ statement_record self.old.0 statement.now }
    {
        self.record(statement.entity);
        if let QueryValue::Var(v) = statement.value {
            self.record(v);
        }
    }
}

fn first_scan(
    is_entity_init: bool,
    is_value_init: bool,
    entity: Slot,
    attribute: Aid,
    value: Slot,
) -> Scan
    ensures { result ≡ scan_for is_entity_init is_value_init entity attribute value }
{
    let (index, flow) = match (is_entity_init, is_value_init) {
        (true, true) => (Index::Aevt, Flow::InIn),
        (true, false) => (Index::Aevt, Flow::InOut),
        (false, true) => (Index::Avet, Flow::InOut),
        (false, false) => (Index::Aevt, Flow::OutOut),
    };
    Scan {
        index,
        flow,
        entity,
        attribute,
        value,
    }
}

// The slot of a value, where a constant takes the next.
fn value_slot(value: QueryValue, slot_count: usize) -> Slot
    requires { slot_count < 2 ^ 16 }
    ensures { result ≡ value_slot value slot_count }
{
    match value {
        QueryValue::Const(_) => Slot(slot_count as u16),
        QueryValue::Var(v) => Slot(v.0),
    }
}

// The slots: the variables, then each constant, at each occurrence. The query was checked first, so there is one for each.
fn initialize_slots(variables: usize, statements: &[Statement]) -> [SlotRecord; MAX_SLOTS]
    requires { Plannable variables (length statements.now) statements.now }
    ensures { result ≡ padded variable_slot max_slots (slots_for variables statements.now) }
{
    let mut slots = [VARIABLE_SLOT; MAX_SLOTS];
    let mut slot_count = variables;
    for statement in statements {
        if let QueryValue::Const(constant) = statement.value {
            slots[slot_count] = SlotRecord {
                definition: SlotDefinition::Constant(constant),
            };
            slot_count += 1;
        }
    }
    slots
}

// As variables are mapped 1:1 to the first slots, the selects are passed along without modification.
fn select_slots(chosen: &[Var]) -> [Slot; MAX_SELECTS]
    requires { length chosen.now ≤ max_selects }
    ensures { result ≡ padded zero_slot max_selects (map slot_of chosen.now) }
{
    let mut select = [Slot(0); MAX_SELECTS];
    // Not `select.iter_mut().zip(chosen)`: of what is written through it the proof knows nothing.
    for (i, v) in chosen.iter().enumerate() {
        select[i] = Slot(v.0);
    }
    select
}
