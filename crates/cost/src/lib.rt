// Noblit -- An immutable append-only database
// Copyright 2020 Ruud van Asseldonk

// Licensed under the Apache License, Version 2.0 (the "License");
// you may not use this file except in compliance with the License.
// A copy of the License has been included in the root of the repository.

// Port of `Plan::cost` of src/plan.rs to Rattle, changed: the hash sets of what earlier scans used are a look back over those
// scans, and a plan whose cost would pass 2^64 - 1, or that uses eavt for out-out, is refused with a number.
#![tactic(auto)]

ghost use Rattle.std.specs.Prelude.{◌≡◌, []};
ghost use Rattle.refusal.specs.Verdict.{answer};
ghost use Rattle.cost.specs.Cost.{same_key, key_used, index_used, penalty_of, iters_of, weight, weight_fault, cost_of_scans, cost_of};

use capacity::MAX_SCANS;
use plan::{Flow, Index, Plan, Scan};
use refusal::{Refusal, Rule, refuse};

// A rather ad-hoc cost estimate. Should be replaced with something better.
#[tactic(auto, unfolding(crate::specs::Cost::cost_of, crate::specs::Cost::cost_of_scans), using(plan::proofs::Counts::flows))]
pub fn cost(plan: Plan) -> Result<u64, Refusal>
    ensures { result ≡ answer (cost_of plan).verdict (cost_of plan).cost }
{
    plan::check_counts(plan.scan_count, plan.slot_count, plan.select_count)?;
    cost_of_scans(plan.scans, plan.scan_count)
}

// The cost of the scans that count, without a plan: not a slice, since a count past the array is refused.
#[tactic(auto, unfolding(crate::specs::Cost::cost_of_scans, plan::specs::Plan::scan_flows_fault))]
pub fn cost_of_scans(scans: [Scan; MAX_SCANS], scan_count: usize) -> Result<u64, Refusal>
    ensures { result ≡ answer (cost_of_scans scans scan_count).verdict (cost_of_scans scans scan_count).cost }
{
    if MAX_SCANS < scan_count {
        return refuse(Rule::PlanCounts, 0);
    }
    let counted = &scans[..scan_count];
    plan::check_flows_of(counted)?;
    cost_of_counted(counted)
}

// From the last scan to the first, cost = penalty + steps × cost, beginning with 1.
fn cost_of_counted(scans: &[Scan]) -> Result<u64, Refusal>
    ensures { result ≡ answer (weight_fault [] scans.now 0) (weight [] scans.now) }
{
    let mut cost: u64 = 1;
    let mut left = scans;
    // Not a `for` over `rev()`: a scan is weighed by those before it, which `split_last` gives too.
    while let Some((scan, earlier)) = left.split_last() {
        let penalty = locality_penalty(scan, earlier);
        let steps = iters(scan.flow, scan.index);
        if (u64::MAX - penalty) / steps < cost {
            return refuse(Rule::CostTooLarge, earlier.len());
        }
        cost = penalty + steps * cost;
        left = earlier;
    }
    Ok(cost)
}

// For every scan, estimate a locality penalty. If the scan is over an index that we've used before (in an earlier scan), then at least
// the root of the tree will still be cached, so the scan is cheaper than when this is the first time we use that index. Furthermore, if
// we use the same part of the index (e.g. an eavt scan for the same entity that an earlier scan used), then locality is even better, so
// we reduce the penalty further.
fn locality_penalty(scan: &Scan, earlier: &[Scan]) -> u64
    ensures { result ≡ penalty_of earlier.now scan.now }
{
    match (
        scan.index,
        is_key_used(scan, earlier),
        is_index_used(scan.index, earlier),
    ) {
        (Index::Eavt, true, _) => 1,
        (Index::Eavt, false, true) => 90,
        (Index::Eavt, false, false) => 100,
        (Index::Aevt, true, _) => 5,
        (Index::Aevt, false, true) => 10,
        (Index::Aevt, false, false) => 20,
        (Index::Avet, true, _) => 10,
        (Index::Avet, false, true) => 50,
        (Index::Avet, false, false) => 60,
    }
}

// Whether an earlier scan used the same part of the scan's index.
fn is_key_used(scan: &Scan, earlier: &[Scan]) -> bool
    ensures { result ≡ key_used scan.now earlier.now }
{
    earlier.iter().any(|used| same_key(scan, used))
}

// Whether an earlier scan used the index at all.
fn is_index_used(index: Index, earlier: &[Scan]) -> bool
    ensures { result ≡ index_used index earlier.now }
{
    earlier.iter().any(|used| index == used.index)
}

// How many steps a scan is taken to make.
fn iters(flow: Flow, index: Index) -> u64
    ensures { result ≡ iters_of flow index }
{
    match (flow, index) {
        (Flow::OutOut, _) => 100,
        (Flow::InOut, Index::Avet) => 20,
        (Flow::InOut, _) => 1,
        (Flow::InIn, _) => 1,
    }
}

// Whether an earlier scan uses the same part of the same index: eavt goes by the entity slot, the others by the attribute.
fn same_key(scan: &Scan, used: &Scan) -> bool
    ensures { result ≡ same_key scan.now used.now }
{
    scan.index == used.index
        && match scan.index {
            Index::Aevt | Index::Avet => scan.attribute.0 == used.attribute.0,
            Index::Eavt => scan.entity.0 == used.entity.0,
        }
}
