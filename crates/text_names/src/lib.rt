// Noblit -- An immutable append-only database
// Copyright 2020 Ruud van Asseldonk

// Licensed under the Apache License, Version 2.0 (the "License");
// you may not use this file except in compliance with the License.
// A copy of the License has been included in the root of the repository.

// Port of `get_select_name` of src/plan.rs to Rattle, changed: the names are lent, as one slice of bytes with an end for each slot, and
// what the Rust panics at is refused with a number.
#![tactic(auto)]

ghost use Rattle.std.specs.Prelude.{◌≡◌, take, get_or};
ghost use Rattle.text_names.specs.Names.{name_start, name_of, wrong_end, ends_fault, names_fault, select_name_fault, select_name_of};
ghost use Rattle.plan.specs.Plan.{constant_at};

use capacity::MAX_SLOTS;
use plan::{Plan, Slot, SlotRecord};
use refusal::{Rule, Verdict, refuse};

// The first name starts here, each other at the end before it.
const FIRST_START: usize = 0;

// What stands against asking the name of the variable selected by the `index`-th select: the first refusal, or nothing.
#[tactic(auto, unfolding(crate::specs::Names::select_name_fault))]
pub fn check_select_name(plan: Plan, names: &[u8], ends: &[usize], index: usize) -> Verdict
    ensures { result ≡ select_name_fault plan names.now ends.now index }
{
    check_names(plan, names, ends)?;
    if plan.select_count <= index {
        return refuse(Rule::NoSuchSelect, index);
    }
    Ok(())
}

// The name of the variable selected by the `index`-th select, a part of the names; of no bytes where that is refused.
pub fn get_select_name<'a>(plan: Plan, names: &'a [u8], ends: &[usize], index: usize) -> &'a [u8]
    ensures { result.now ≡ select_name_of plan names.now ends.now index }
{
    match check_select_name(plan, names, ends, index) {
        Ok(()) => get_name(plan.select[index], names, ends),
        Err(_) => &names[..0],
    }
}

// The plan check, and then 30: what the text and a name begin with.
#[tactic(auto, unfolding(crate::specs::Names::names_fault))]
pub fn check_names(plan: Plan, names: &[u8], ends: &[usize]) -> Verdict
    ensures { result ≡ names_fault plan names.now ends.now }
{
    plan_check::check_invariants(plan)?;
    check_ends(names, ends, plan.slot_count)
}

// 30: name ends fall, pass the name bytes, or aren't one per slot.
fn check_ends(names: &[u8], ends: &[usize], slot_count: usize) -> Verdict
    ensures { result ≡ ends_fault names.now ends.now slot_count }
{
    if ends.len() != slot_count {
        return refuse(Rule::NameEnds, 0);
    }
    let mut before = 0;
    for end in ends {
        if is_wrong_end(names.len(), before, *end) {
            return refuse(Rule::NameEnds, 0);
        }
        before = *end;
    }
    Ok(())
}

// Whether an end falls below the one before it, or passes the name bytes there are.
fn is_wrong_end(bytes: usize, before: usize, end: usize) -> bool
    ensures { result ≡ wrong_end bytes before end }
{
    end < before || bytes < end
}

// The name of a slot, a part of the names. Where ends are wrong it is as much of it as there is.
pub fn get_name<'a>(slot: Slot, names: &'a [u8], ends: &[usize]) -> &'a [u8]
    ensures { result.now ≡ name_of names.now ends.now slot.0 }
{
    let i_slot = usize::from(slot.0);
    let end = end_at(i_slot, ends).min(names.len());
    let start = start_at(i_slot, ends).min(end);
    &names[start..end]
}

// Where the name of a slot starts.
fn start_at(i_slot: usize, ends: &[usize]) -> usize
    ensures { result ≡ name_start ends.now i_slot }
{
    if i_slot == 0 {
        return FIRST_START;
    }
    end_at(i_slot - 1, ends)
}

// Where the name of a slot ends.
fn end_at(i_slot: usize, ends: &[usize]) -> usize
    ensures { result ≡ get_or ends.now i_slot 0 }
{
    ends.get(i_slot).copied().unwrap_or(0)
}

// Whether a slot is a constant, of the first `slot_count`. Not a slice, since a damaged count may pass the array.
pub fn is_constant(slots: [SlotRecord; MAX_SLOTS], slot_count: usize, slot: Slot) -> bool
    ensures { result ≡ constant_at (take slot_count slots) slot.0 }
{
    let i_slot = usize::from(slot.0);
    i_slot < slot_count && i_slot < MAX_SLOTS && plan::is_constant(slots[i_slot].definition)
}
