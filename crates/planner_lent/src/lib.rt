// Noblit -- An immutable append-only database
// Copyright 2018 Ruud van Asseldonk

// Licensed under the Apache License, Version 2.0 (the "License");
// you may not use this file except in compliance with the License.
// A copy of the License has been included in the root of the repository.

// The lent form of planning: the Rust's `Query` lends its statements and selects as slices, and so does the caller here. They
// are read into a query by value, which is what the crate `planner` works on.
#![tactic(auto)]

ghost use Rattle.std.specs.Prelude.{◌≡◌, ◌++◌, length, take, drop};
ghost use Rattle.refusal.specs.Verdict.{answer};
ghost use Rattle.planner.specs.Planning.{plan_of};
ghost use Rattle.planner_lent.specs.Lent.{read_statements, read_selects, plan_lent};

use capacity::{MAX_SELECTS, MAX_STATEMENTS};
use plan::Plan;
use query::{Query, Selects, Statement, Statements, Var, ZERO_STATEMENT};
use refusal::Refusal;

// Plan the query that is lent: how many variables it has, the statements that must hold, and the variables to yield.
pub fn plan(
    variable_count: u64,
    where_statements: &[Statement],
    select: &[Var],
) -> Result<Plan, Refusal>
    ensures { let said = plan_lent variable_count where_statements.now select.now in result ≡ answer said.verdict said.plan }
{
    planner::plan(Query {
        variable_count,
        where_statements: read_statements(where_statements),
        select: read_selects(select),
    })
}

// Plan a query by value: its statements and selects are lent to `plan`. More than the arrays hold cannot be lent, and that is refused.
pub fn plan_query(query: Query) -> Result<Plan, Refusal>
    ensures { result ≡ answer (plan_of query).verdict (plan_of query).plan }
{
    if MAX_STATEMENTS < query.where_statements.count || MAX_SELECTS < query.select.count {
        return planner::plan(query);
    }
    plan(
        query.variable_count,
        &query.where_statements.items[..query.where_statements.count],
        &query.select.items[..query.select.count],
    )
}

// The statements that are lent: as many as fit, zeros past them, and the count of all.
pub fn read_statements(lent: &[Statement]) -> Statements
    ensures { result ≡ read_statements lent.now }
{
    let mut items = [ZERO_STATEMENT; MAX_STATEMENTS];
    put_front(&mut items, lent);
    Statements {
        items,
        count: lent.len(),
    }
}

// The variables to select that are lent, in the same way.
pub fn read_selects(lent: &[Var]) -> Selects
    ensures { result ≡ read_selects lent.now }
{
    let mut items = [Var(0); MAX_SELECTS];
    put_front(&mut items, lent);
    Selects {
        items,
        count: lent.len(),
    }
}

// Put what is lent over the front of some items, as much of it as fits.
fn put_front<T: Copy>(items: &mut [T], lent: &[T])
    ensures { items.new ≡ take (length items.old) lent.now ++ drop (length lent.now) items.old }
{
    let fitting = lent.len().min(items.len());
    items[..fitting].copy_from_slice(&lent[..fitting]);
}
