// Noblit -- An immutable append-only database
// Copyright 2020 Ruud van Asseldonk

// Licensed under the Apache License, Version 2.0 (the "License");
// you may not use this file except in compliance with the License.
// A copy of the License has been included in the root of the repository.

// Evaluation (002, reshaped): the plan and the tables are checked, and then a window of the rows goes to a lent buffer. How is private:
// `walk` steps the nested loops, `rows` fills a window, `setup` lays a plan out for them.
#![tactic(auto)]

mod rows;
mod setup;
mod walk;

ghost use Rattle.std.specs.Prelude.{◌≡◌, length};
ghost use Rattle.visits.specs.Visits.{lent};
ghost use Rattle.eval.specs.Evaluation.{evaluation_fault, evaluate_of, buffer_after, said_rows};

use plan::Plan;
use refusal::{Refusal, Rule, Verdict, refuse};
pub use rows::Shown;
use tables::Tables;

// Evaluate a plan over three tables: write its rows from number `from` on, as many whole rows as fit in the buffer. On a refusal
// the buffer stays as it is.
#[tactic(auto, unfolding(crate::specs::Evaluation::evaluate_of, crate::specs::Evaluation::buffer_after))]
pub fn evaluate(plan: Plan, tables: &Tables, from: u64, rows: &mut [u64]) -> Result<Shown, Refusal>
    ensures value { result ≡ said_rows (evaluate_of plan (lent tables.now) from (length rows.old)) }
    ensures rows_after { rows.new ≡ buffer_after plan (lent tables.now) from rows.old }
{
    check(plan, tables)?;
    Ok(setup::evaluate_checked(plan, tables, from, rows))
}

// Whether evaluation refuses: the plan check, 28 where there are no scans, and the check of the tables.
#[tactic(auto, unfolding(crate::specs::Evaluation::evaluation_fault))]
pub fn check(plan: Plan, tables: &Tables) -> Verdict
    ensures { result ≡ evaluation_fault plan (lent tables.now) }
{
    plan_check::check_invariants(plan)?;
    if plan.scan_count == 0 {
        return refuse(Rule::NoScans, 0);
    }
    tables.check()
}
