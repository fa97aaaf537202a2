// Noblit -- An immutable append-only database
// Copyright 2018 Ruud van Asseldonk

// Licensed under the Apache License, Version 2.0 (the "License");
// you may not use this file except in compliance with the License.
// A copy of the License has been included in the root of the repository.

// Port of src/query.rs to Rattle, changed: attributes are fixed attribute ids, and values are u64.

// Defines queries (read-only).
//
// Queries need to be translated into a query plan before they can be evaluated.
#![tactic(auto)]

use capacity::{MAX_SELECTS, MAX_STATEMENTS};
use datom::Aid;

// A placeholder variable in a query.
//
// Variables can be named, but the names are specified separately; internally variables are referenced by index. No query has u16::MAX
// variables, and no plan so many slots: readers take a number past it for that one.
#[derive(Clone, Copy, PartialEq, Eq)]
pub struct Var(pub u16);

// The value in a query can be a constant or a variable.
#[derive(Clone, Copy, PartialEq, Eq)]
pub enum QueryValue {
    Const(u64),
    Var(Var),
}

// A statement that relates an entity, attribute, and a value.
#[derive(Clone, Copy)]
pub struct Statement {
    pub entity: Var,
    pub attribute: Aid,
    pub value: QueryValue,
}

// What stands past the last statement of every array of statements.
pub const ZERO_STATEMENT: Statement = Statement {
    entity: Var(0),
    attribute: Aid(0),
    value: QueryValue::Const(0),
};

// Statements by value: as many as the count says, which may be more than the array holds.
#[derive(Clone, Copy)]
pub struct Statements {
    pub items: [Statement; MAX_STATEMENTS],
    pub count: usize,
}

// Variables to select, by value, in the same way.
#[derive(Clone, Copy)]
pub struct Selects {
    pub items: [Var; MAX_SELECTS],
    pub count: usize,
}

// A query.
//
// It finds the assignments to its variables that make all its statements facts, and selects some of the variables.
#[derive(Clone, Copy)]
pub struct Query {
    // The number of variables. Their names serve the plan text only, and are lent to that.
    pub variable_count: u64,

    // The statements that must hold.
    pub where_statements: Statements,

    // The variables to yield, in order.
    pub select: Selects,
}
