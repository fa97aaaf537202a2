// Noblit -- An immutable append-only database
// Copyright 2018 Ruud van Asseldonk

// Licensed under the Apache License, Version 2.0 (the "License");
// you may not use this file except in compliance with the License.
// A copy of the License has been included in the root of the repository.

// Port of `infer_types` of src/query.rs to Rattle, changed: the attributes' types come in a lent table and not from a view, vectors of
// options are arrays, and errors are refusals with a number. An attribute that does not exist, which the Rust leaves open, is refused.

// Infers the type of every variable of a query.
#![tactic(auto)]

ghost use Rattle.std.specs.Prelude.{◌≡◌, ◌<◌, true, Ok, not};
ghost use Rattle.refusal.specs.Verdict.{answer, refuse_if};
ghost use Rattle.capacity.specs.Capacity.{max_slots};
ghost use Rattle.query_check.specs.Below.{Below};
ghost use Rattle.types.specs.Types.{is_table, type_of, inferred_of};
ghost use Rattle.types.specs.Record.{row_count, attribute_at, Typable, found_in, unifies_in, with_type_in, statement_type_fault_in, with_statement_in, inferred_from};

use capacity::MAX_SLOTS;
use datom::Aid;
use query::{Query, QueryValue, Statement, Var};
use refusal::{Refusal, Rule, Verdict, refuse};

// The type of an entity. Any other number is a type that only the table's author knows.
pub const REFERENCE: u64 = 0;

// The words of a row of a table of types: an attribute, and its type.
const ROW_WORDS: usize = 2;

// The types of the variables: none yet of one that no statement so far names.
type KnownTypes = [Option<u64>; MAX_SLOTS];

// Infer the type of every variable.
#[tactic(auto, unfolding(crate::specs::Types::inferred_of, crate::specs::Types::types_fault))]
pub fn infer_types(query: Query, table: &[u64]) -> Result<[u64; MAX_SLOTS], Refusal>
    ensures { let said = inferred_of query table.now in result ≡ answer said.verdict said.types }
{
    planner::check_plannable(query)?;
    if !is_table(table) {
        return refuse(Rule::TypeTable, 0);
    }
    infer_statements(
        &query.where_statements.items[..query.where_statements.count],
        table,
    )
}

// Whether the table has whole rows, which ascend strictly by attribute.
fn is_table(table: &[u64]) -> bool
    ensures { result ≡ is_table table.now }
{
    let (rows, rest) = table.as_chunks::<ROW_WORDS>();
    rest.is_empty() && rows.is_sorted_by(|before, row| before[0] < row[0])
}

// Statement by statement: a variable takes the type that the first statement to name it gives it, and every later use must agree.
fn infer_statements(statements: &[Statement], table: &[u64]) -> Result<[u64; MAX_SLOTS], Refusal>
    requires { Typable statements.now table.now }
    ensures { let said = inferred_from statements.now table.now in result ≡ answer said.verdict said.types }
{
    let mut known = [None; MAX_SLOTS];
    for (i, statement) in statements.iter().enumerate() {
        infer_statement(&mut known, *statement, table, i)?;
    }
    Ok(known.map(|number| number.unwrap_or(0)))
}

// The type of an attribute. The rows ascend by attribute, so it is searched by halves.
fn find_type(table: &[u64], attribute: Aid) -> Option<u64>
    requires { is_table table.now ≡ true }
    ensures { result ≡ found_in table.now attribute.0 }
{
    let (rows, _) = table.as_chunks::<ROW_WORDS>();
    match rows.binary_search_by_key(&attribute.0, |row| row[0]) {
        Ok(i) => Some(rows[i][1]),
        Err(_) => None,
    }
}

// An entity is a reference; a variable value has its attribute's type. 52 where the entity is no reference, 51 where the attribute does not
// exist, 52 where the value has another type than the attribute.
#[tactic(auto, unfolding(crate::specs::Record::statement_type_fault_in, crate::specs::Record::with_statement_in))]
fn infer_statement(known: &mut KnownTypes, statement: Statement, table: &[u64], i: usize) -> Verdict
    requires below { Below max_slots statement }
    requires ascends { is_table table.now ≡ true }
    ensures verdict { result ≡ statement_type_fault_in known.old statement (found_in table.now statement.attribute.0) i }
    ensures known { result ≡ Ok tt → known.new ≡ with_statement_in known.old statement (type_of table.now statement.attribute.0) }
{
    unify(known, statement.entity, REFERENCE, i)?;
    // The Rust leaves open what happens if the attribute does not exist.
    let Some(number) = find_type(table, statement.attribute) else {
        return refuse(Rule::NoSuchAttribute, i);
    };
    match statement.value {
        // A constant is skipped, as in the Rust: a u64 may be of any type.
        QueryValue::Const(_) => Ok(()),
        QueryValue::Var(v) => unify(known, v, number, i),
    }
}

// A use of a variable as a type: it keeps the type that it has, or else takes this one. 52 where the two differ.
fn unify(known: &mut KnownTypes, variable: Var, number: u64, i: usize) -> Verdict
    requires { variable.0 < max_slots }
    ensures verdict { result ≡ refuse_if (not (unifies_in known.old variable.0 number)) 52 i }
    ensures known { known.new ≡ with_type_in known.old variable.0 number }
{
    if *known[variable.0 as usize].get_or_insert(number) == number {
        Ok(())
    } else {
        refuse(Rule::TypeClash, i)
    }
}
