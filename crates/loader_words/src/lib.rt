// Plans and queries as words, for callers in other languages: each is an array of u64 with every number at a fixed place. This crate
// reads them; `plan_words` writes a plan.
//
// A plan: its counts of scans, slots and selects; then room for MAX_SCANS scans (index, flow, entity's slot, attribute, value's slot), for
// MAX_SLOTS slots (1 for a constant, else 0; its value), and for MAX_SELECTS selects of one word (the slot).
//
// A query: its counts of variables, statements and selects; then room for MAX_STATEMENTS statements (entity's variable, attribute, 1
// for a constant, else 0; the constant or the value's variable), and for MAX_SELECTS selects of one word (the variable).
//
// Any words say a plan, and any say a query. Words that no plan of the planner has are read so that the plan check refuses them:
// see specs/Words.antt.
#![tactic(auto)]

ghost use Rattle.std.specs.Prelude.{◌≡◌, ◌<◌, min};
ghost use Rattle.capacity.specs.Capacity.{max_scans, max_slots, max_selects, max_statements};
ghost use Rattle.query.specs.Query.{largest};
ghost use Rattle.loader_words.specs.Words.{index_of, flow_of, definition_of, word_value, scan_at, slot_at, selected_at, statement_at, variable_at, scans_in, slots_in, selects_in, statements_in, variables_in, plan_of_words, query_of_words};

use capacity::{MAX_SCANS, MAX_SELECTS, MAX_SLOTS, MAX_STATEMENTS};
use datom::Aid;
use plan::{Flow, Index, Plan, Scan, Slot, SlotDefinition, SlotRecord, VARIABLE_SLOT, ZERO_SCAN};
use query::{Query, QueryValue, Selects, Statement, Statements, Var, ZERO_STATEMENT};

// The words of a scan, after the first, which is its index; and of a slot, after the first, which says whether it is a constant.
pub const SCAN_FLOW: usize = 1;

pub const SCAN_ENTITY: usize = 2;

pub const SCAN_ATTRIBUTE: usize = 3;

pub const SCAN_VALUE: usize = 4;

pub const SCAN_WORDS: usize = 5;

pub const SLOT_VALUE: usize = 1;

pub const SLOT_WORDS: usize = 2;

// Where each part of a plan starts, and how many words a plan has.
pub const SCAN_COUNT_AT: usize = 0;

pub const SLOT_COUNT_AT: usize = 1;

pub const SELECT_COUNT_AT: usize = 2;

pub const SCANS_AT: usize = 3;

pub const SLOTS_AT: usize = SCANS_AT + SCAN_WORDS * MAX_SCANS;

pub const SELECT_AT: usize = SLOTS_AT + SLOT_WORDS * MAX_SLOTS;

pub const PLAN_WORDS: usize = SELECT_AT + MAX_SELECTS;

// The same of a query. The first word of a statement is its entity; the count of selects stands where that of a plan does.
const STATEMENT_ATTRIBUTE: usize = 1;

const STATEMENT_IS_CONSTANT: usize = 2;

const STATEMENT_VALUE: usize = 3;

pub const STATEMENT_WORDS: usize = 4;

const VARIABLE_COUNT_AT: usize = 0;

const STATEMENT_COUNT_AT: usize = 1;

const STATEMENTS_AT: usize = 3;

const VARIABLES_AT: usize = STATEMENTS_AT + STATEMENT_WORDS * MAX_STATEMENTS;

pub const QUERY_WORDS: usize = VARIABLES_AT + MAX_SELECTS;

// The plan that the words say.
pub fn read_plan(words: &[u64; PLAN_WORDS]) -> Plan
    ensures { result ≡ plan_of_words words.now }
{
    let scans = read_scans(words);
    let slots = read_slots(words);
    let select = read_select(words);
    Plan {
        scans,
        scan_count: words[SCAN_COUNT_AT] as usize,
        slots,
        slot_count: words[SLOT_COUNT_AT] as usize,
        select,
        select_count: words[SELECT_COUNT_AT] as usize,
    }
}

// The query that the words say.
pub fn read_query(words: &[u64; QUERY_WORDS]) -> Query
    ensures { result ≡ query_of_words words.now }
{
    let statements = read_statements(words);
    let variables = read_variables(words);
    Query {
        variable_count: words[VARIABLE_COUNT_AT],
        where_statements: Statements {
            items: statements,
            count: words[STATEMENT_COUNT_AT] as usize,
        },
        select: Selects {
            items: variables,
            count: words[SELECT_COUNT_AT] as usize,
        },
    }
}

// Each array is filled by a loop of its own: of what `array::from_fn` makes, the proof of an element does not close, as the closure may change.
fn read_scans(words: &[u64; PLAN_WORDS]) -> [Scan; MAX_SCANS]
    ensures { result ≡ scans_in words.now }
{
    let mut scans = [ZERO_SCAN; MAX_SCANS];
    for i in 0..MAX_SCANS {
        scans[i] = read_scan(words, i);
    }
    scans
}

fn read_slots(words: &[u64; PLAN_WORDS]) -> [SlotRecord; MAX_SLOTS]
    ensures { result ≡ slots_in words.now }
{
    let mut slots = [VARIABLE_SLOT; MAX_SLOTS];
    for i in 0..MAX_SLOTS {
        slots[i] = read_slot(words, i);
    }
    slots
}

fn read_select(words: &[u64; PLAN_WORDS]) -> [Slot; MAX_SELECTS]
    ensures { result ≡ selects_in words.now }
{
    let mut select = [Slot(0); MAX_SELECTS];
    for i in 0..MAX_SELECTS {
        select[i] = read_selected(words, i);
    }
    select
}

fn read_statements(words: &[u64; QUERY_WORDS]) -> [Statement; MAX_STATEMENTS]
    ensures { result ≡ statements_in words.now }
{
    let mut statements = [ZERO_STATEMENT; MAX_STATEMENTS];
    for i in 0..MAX_STATEMENTS {
        statements[i] = read_statement(words, i);
    }
    statements
}

fn read_variables(words: &[u64; QUERY_WORDS]) -> [Var; MAX_SELECTS]
    ensures { result ≡ variables_in words.now }
{
    let mut select = [Var(0); MAX_SELECTS];
    for i in 0..MAX_SELECTS {
        select[i] = read_variable(words, i);
    }
    select
}

fn read_scan(words: &[u64; PLAN_WORDS], i: usize) -> Scan
    requires { i < max_scans }
    ensures { result ≡ scan_at words.now i }
{
    let at = SCANS_AT + SCAN_WORDS * i;
    let (index, flow) = kind_of(words[at], words[at + SCAN_FLOW]);
    Scan {
        index,
        flow,
        entity: Slot(short(words[at + SCAN_ENTITY])),
        attribute: Aid(words[at + SCAN_ATTRIBUTE]),
        value: Slot(short(words[at + SCAN_VALUE])),
    }
}

fn read_slot(words: &[u64; PLAN_WORDS], i: usize) -> SlotRecord
    requires { i < max_slots }
    ensures { result ≡ slot_at words.now i }
{
    let at = SLOTS_AT + SLOT_WORDS * i;
    SlotRecord {
        definition: definition_of(words[at], words[at + SLOT_VALUE]),
    }
}

fn read_selected(words: &[u64; PLAN_WORDS], i: usize) -> Slot
    requires { i < max_selects }
    ensures { result ≡ selected_at words.now i }
{
    Slot(short(words[SELECT_AT + i]))
}

fn read_statement(words: &[u64; QUERY_WORDS], i: usize) -> Statement
    requires { i < max_statements }
    ensures { result ≡ statement_at words.now i }
{
    let at = STATEMENTS_AT + STATEMENT_WORDS * i;
    Statement {
        entity: Var(short(words[at])),
        attribute: Aid(words[at + STATEMENT_ATTRIBUTE]),
        value: value_of(
            words[at + STATEMENT_IS_CONSTANT],
            words[at + STATEMENT_VALUE],
        ),
    }
}

fn read_variable(words: &[u64; QUERY_WORDS], i: usize) -> Var
    requires { i < max_selects }
    ensures { result ≡ variable_at words.now i }
{
    Var(short(words[VARIABLES_AT + i]))
}

// A slot's or a variable's number. One that is too large is read as the largest, which names no slot and no variable either.
fn short(word: u64) -> u16
    ensures { result ≡ min word largest }
{
    word.min(u64::from(u16::MAX)) as u16
}

// The index and the flow that the words say. Where one of them says none, out-out over eavt, which is refused.
fn kind_of(index: u64, flow: u64) -> (Index, Flow)
    ensures { result ≡ (index_of index flow, flow_of index flow) }
{
    match (Index::try_from(index), Flow::try_from(flow)) {
        (Ok(index), Ok(flow)) => (index, flow),
        _ => (Index::Eavt, Flow::OutOut),
    }
}

fn definition_of(is_constant: u64, value: u64) -> SlotDefinition
    ensures { result ≡ definition_of is_constant value }
{
    match is_constant {
        1 => SlotDefinition::Constant(value),
        _ => SlotDefinition::Variable,
    }
}

fn value_of(is_constant: u64, value: u64) -> QueryValue
    ensures { result ≡ word_value is_constant value }
{
    match is_constant {
        1 => QueryValue::Const(value),
        0 => QueryValue::Var(Var(short(value))),
        _ => QueryValue::Var(Var(u16::MAX)),
    }
}
