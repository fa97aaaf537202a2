// What a query must be before it can be planned or searched: the refusals 10 to 15 of document 01. Added: the Rust asserts a part
// of this, and takes a variable number at or above the count for a constant's slot.
#![tactic(auto)]

ghost use Rattle.std.specs.Prelude.{◌≡◌, ◌≤◌, ◌+◌, not, ltb, length};
ghost use Rattle.capacity.specs.Capacity.{max_statements, max_slots, max_selects};
ghost use Rattle.query.specs.Query.{names, named, statements_of};
ghost use Rattle.query_check.specs.Refusals.{constants_in, constants, high, statements_fault, selects_fault, unused_fault, capacity_fault, variables_fault, query_fault};

use capacity::{MAX_SELECTS, MAX_SLOTS, MAX_STATEMENTS};
use query::{Query, QueryValue, Statement, Var};
use refusal::{Rule, Verdict, refuse};

// Check that a query can be planned or searched: 10 to 15.
#[tactic(auto, unfolding(crate::specs::Refusals::query_fault))]
pub fn check_query(query: Query) -> Verdict
    ensures { result ≡ query_fault query }
{
    check_capacity(&query)?;
    let statements = &query.where_statements.items[..query.where_statements.count];
    let select = &query.select.items[..query.select.count];
    check_variables(query.variable_count as usize, statements, select)
}

// 10 to 13: the counts are within the capacities, and something is selected.
#[tactic(auto, unfolding(crate::specs::Refusals::capacity_fault))]
fn check_capacity(query: &Query) -> Verdict
    ensures { result ≡ capacity_fault query.now.variable_count query.now.where_statements.count (statements_of query.now) query.now.select.count }
{
    if MAX_STATEMENTS < query.where_statements.count {
        return refuse(Rule::TooManyStatements, 0);
    }
    let statements = &query.where_statements.items[..query.where_statements.count];
    if !has_room(query.variable_count, count_constants(statements)) {
        return refuse(Rule::TooManySlots, 0);
    }
    if MAX_SELECTS < query.select.count {
        return refuse(Rule::TooManySelects, 0);
    }
    if query.select.count == 0 {
        return refuse(Rule::NoSelects, 0);
    }
    Ok(())
}

// Whether there is a slot for each variable and constant. Their sum may not fit a number.
fn has_room(variable_count: u64, constant_count: usize) -> bool
    ensures { result ≡ not (ltb max_slots (variable_count + constant_count)) }
{
    constant_count <= MAX_SLOTS && variable_count <= (MAX_SLOTS - constant_count) as u64
}

// 14 and 15: statements and selects name variables of the query, and every variable is named.
#[tactic(auto, unfolding(crate::specs::Refusals::variables_fault))]
fn check_variables(variables: usize, statements: &[Statement], select: &[Var]) -> Verdict
    requires { (length statements.now ≤ max_statements) × (length select.now ≤ max_selects) × (variables ≤ max_slots) }
    ensures { result ≡ variables_fault variables (length statements.now) statements.now select.now }
{
    check_statements(statements, variables)?;
    check_selects(select, variables, statements.len())?;
    check_all_named(statements, variables)
}

// How many of the statements have a constant.
fn count_constants(statements: &[Statement]) -> usize
    requires { length statements.now ≤ max_statements }
    ensures { result ≡ constants statements.now }
{
    statements.iter().map(|s| constants_in(s.value)).sum()
}

// 1 if the value is a constant.
pub fn constants_in(value: QueryValue) -> usize
    ensures { result ≡ constants_in value }
{
    match value {
        QueryValue::Const(_) => 1,
        QueryValue::Var(_) => 0,
    }
}

// 14: the lowest statement with a variable that is not below the count.
fn check_statements(statements: &[Statement], variables: usize) -> Verdict
    ensures { result ≡ statements_fault variables statements.now 0 }
{
    for (i, s) in statements.iter().enumerate() {
        if is_high(s, variables) {
            return refuse(Rule::NoSuchVariable, i);
        }
    }
    Ok(())
}

fn is_high(statement: &Statement, variables: usize) -> bool
    ensures { result ≡ high variables statement.now }
{
    variables <= statement.entity.0 as usize
        || matches!(statement.value, QueryValue::Var(v) if variables <= v.0 as usize)
}

// 14: the lowest select that is not below the count, counted on from the statements.
fn check_selects(select: &[Var], variables: usize, statement_count: usize) -> Verdict
    requires { (length select.now ≤ max_selects) × (statement_count ≤ max_statements) }
    ensures { result ≡ selects_fault variables select.now statement_count }
{
    for (i, v) in select.iter().enumerate() {
        if variables <= v.0 as usize {
            return refuse(Rule::NoSuchVariable, statement_count + i);
        }
    }
    Ok(())
}

// 15: the lowest variable that no statement names.
fn check_all_named(statements: &[Statement], variables: usize) -> Verdict
    requires { variables ≤ max_slots }
    ensures { result ≡ unused_fault statements.now variables 0 }
{
    for v in 0..variables {
        if !is_named(statements, Var(v as u16)) {
            return refuse(Rule::UnusedVariable, v);
        }
    }
    Ok(())
}

// Whether one of the statements names a variable.
fn is_named(statements: &[Statement], v: Var) -> bool
    ensures { result ≡ named statements.now v.0 }
{
    statements.iter().any(|s| names_variable(s, v))
}

fn names_variable(statement: &Statement, v: Var) -> bool
    ensures { result ≡ names statement.now v.0 }
{
    statement.entity == v || statement.value == QueryValue::Var(v)
}
