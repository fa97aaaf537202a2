// Noblit -- An immutable append-only database
// Copyright 2020 Ruud van Asseldonk

// Licensed under the Apache License, Version 2.0 (the "License");
// you may not use this file except in compliance with the License.
// A copy of the License has been included in the root of the repository.

// Port of `next_scan` and `Planner::next` of src/planner.rs to Rattle, changed: `next` takes the plan and hands it back, and what the
// Rust panics on is refused with a number.
#![tactic(auto)]

ghost use Rattle.std.specs.Prelude.{◌≡◌};
ghost use Rattle.refusal.specs.Verdict.{answer};
ghost use Rattle.listing.specs.Next.{next_index, is_new_index, next_scans, is_new_scans, next_of_scans, next_plan_of};

use capacity::MAX_SCANS;
use plan::{Flow, Index, Plan, Scan};
use refusal::{Refusal, Rule, refuse};

// Advance the plan to its next alternative.
//
// Says whether a new plan was generated. Says no when all plans have been exhausted; the initial plan then stands again. On a refusal
// the plan stays as it is.
#[tactic(auto, unfolding(crate::specs::Next::next_plan_of, crate::specs::Next::next_of_scans), using(plan::proofs::Counts::flows))]
pub fn next(plan: &mut Plan) -> Result<bool, Refusal>
    ensures value { let next = next_plan_of plan.old in result ≡ answer next.verdict next.is_new }
    ensures plan_after { plan.new ≡ (next_plan_of plan.old).plan }
{
    plan::check_counts(plan.scan_count, plan.slot_count, plan.select_count)?;
    next_scans(&mut plan.scans, plan.scan_count)
}

// The same for the scans that count, without a plan: they advance up to the first that is new, and the others stay as they are. Not a slice,
// since a count past the array is refused.
#[tactic(auto, unfolding(crate::specs::Next::next_of_scans, plan::specs::Plan::scan_flows_fault))]
pub fn next_scans(scans: &mut [Scan; MAX_SCANS], scan_count: usize) -> Result<bool, Refusal>
    ensures value { let next = next_of_scans scans.old scan_count in result ≡ answer next.verdict next.is_new }
    ensures scans_after { scans.new ≡ (next_of_scans scans.old scan_count).scans }
{
    if MAX_SCANS < scan_count {
        return refuse(Rule::PlanCounts, 0);
    }
    plan::check_flows_of(&scans[..scan_count])?;
    Ok(advance(&mut scans[..scan_count]))
}

// The scans advance up to the first that is new: whether there is one.
fn advance(scans: &mut [Scan]) -> bool
    ensures says { result ≡ is_new_scans scans.old }
    ensures steps { scans.new ≡ next_scans scans.old }
{
    for scan in scans.iter_mut() {
        let is_new = is_new_index(scan.flow, scan.index);
        // A different scan that fills the same slots.
        scan.index = next_index(scan.flow, scan.index);
        if is_new {
            // The altered scan is one that we had not seen before. Therefore, the plan is also a new one. Return that.
            return true;
        }

        // If the scan is not new, then we cycled back to the initial scan. But we can still try to cycle a different scan, in
        // the next iteration. And for that different value, we can then try all options for the earlier scans too.
    }

    // If we ended up here, we tried incrementing every scan, but all of them cycled back to the initial one, which means we
    // have exhausted all options.
    false
}

// The next index of the cycle.
fn next_index(flow: Flow, index: Index) -> Index
    ensures { result ≡ next_index flow index }
{
    match (flow, index) {
        // For out-out, we can use the attribute-leading indexes. Using eavt for out-out is invalid, and `next` refuses it.
        (Flow::OutOut, Index::Aevt) => Index::Avet,
        (Flow::OutOut, Index::Avet) => Index::Aevt,
        (Flow::OutOut, Index::Eavt) => Index::Eavt,

        // For in-in, we can use all three indexes.
        (Flow::InIn, Index::Aevt) => Index::Avet,
        (Flow::InIn, Index::Avet) => Index::Eavt,
        (Flow::InIn, Index::Eavt) => Index::Aevt,

        // For in-out, we need to keep the slot that is the input (either the entity or the value) the input, and the other one
        // the output. There are two cycles here, one of length 2, and one of length 1.
        (Flow::InOut, Index::Aevt) => Index::Eavt,
        (Flow::InOut, Index::Eavt) => Index::Aevt,
        (Flow::InOut, Index::Avet) => Index::Avet,
    }
}

// Whether that is a new one, and not the first of the cycle again.
fn is_new_index(flow: Flow, index: Index) -> bool
    ensures { result ≡ is_new_index flow index }
{
    match flow {
        Flow::OutOut | Flow::InOut => index == Index::Aevt,
        Flow::InIn => index != Index::Eavt,
    }
}
