// What the numbers of the program's input say (docs/LAYOUT.md, "What the numbers say"): a header of four numbers, and eight parts, each
// a count and then as many items. The table of types is left out, its count too, where the task does not have types checked. `find_parts`
// finds the parts; the functions that read from them are given the parts that were found.
#![tactic(auto)]

ghost use Rattle.std.specs.Prelude.{◌≡◌, true, ◌++◌, ◌<◌, ◌≤◌, length, drop, get_or};
ghost use Rattle.capacity.specs.Capacity.{max_statements};
ghost use Rattle.ask_question.specs.Parts.{no_part, part_at, checks_types, left_out, types_at, parts_of, items_of, are_kinds, are_bytes, inside_with};
ghost use Rattle.ask_question.specs.Asked.{asked_var, asked_value, asked_statement, asked_statements, asked_selects, query_with, bytes_fit, bytes_after, end_of, ends_after, ends_count};

use capacity::{MAX_SELECTS, MAX_SLOTS, MAX_STATEMENTS};
use datom::Aid;
use query::{Query, QueryValue, Selects, Statement, Statements, Var, ZERO_STATEMENT};

// A part of the input: where its items begin, how many they are, how many words they take, and where the next part begins. One that
// is not there has no items, and nothing comes after it. It stays a part, not a None: its items are read before `is_inside` is asked.
#[derive(Clone, Copy)]
pub struct Part {
    pub inside: bool,
    pub at: usize,
    pub count: usize,
    pub length: usize,
    pub next: usize,
}

// The parts of the input, in their order. The tables stand last: as they must hold the same facts, a question that lost its end is noticed.
#[derive(Clone, Copy)]
pub struct Parts {
    pub statements: Part,
    pub selects: Part,
    pub names: Part,
    pub ends: Part,
    pub types: Part,
    pub aevt: Part,
    pub avet: Part,
    pub eavt: Part,
}

// The header: what to do, the number of variables, the first row to show, and how many rows at most.
pub const TASK: usize = 0;

pub const VARIABLES: usize = 1;

pub const FROM: usize = 2;

pub const MOST: usize = 3;

const HEADER: usize = 4;

// What to do: plan the statements in the order given, or search; or the same once the types of the variables are checked.
// Numbers of the input's layout: a task past the last has its meaning too, so none is turned into an enum that would refuse it.
pub const PLAN: u64 = 0;

pub const SEARCH: u64 = 1;

pub const TYPED_PLAN: u64 = 2;

pub const TYPED_SEARCH: u64 = 3;

// The numbers of a statement: entity, attribute, kind and value; the kind is 0 for a variable and 1 for a constant.
// Numbers of the input's layout: a kind past the last is read as a constant.
const STATEMENT: usize = 4;

const VARIABLE: u64 = 0;

const CONSTANT: u64 = 1;

const LAST_BYTE: u64 = 255;

// An end for each slot that a plan can have, and one more, so that too many are seen.
pub const MAX_ENDS: usize = MAX_SLOTS + 1;

// Whether an input of these parts is in the layout: the last part is there and nothing follows it, the task and the kinds of the
// statements are known, and the bytes of names are bytes.
#[tactic(auto, unfolding(crate::specs::Parts::inside_with))]
pub fn is_inside(words: &[u64], parts: Parts) -> bool
    ensures { result ≡ inside_with words.now parts }
{
    parts.eavt.inside
        && words.len() <= parts.eavt.next
        && word_at(words, TASK) <= TYPED_SEARCH
        && are_kinds(items(words, parts.statements))
        && are_bytes(items(words, parts.names))
}

// The parts of an input.
#[tactic(auto, unfolding(crate::specs::Parts::parts_of))]
pub fn find_parts(words: &[u64]) -> Parts
    ensures { result ≡ parts_of words.now }
{
    let statements = part_at(words, HEADER, STATEMENT);
    let selects = part_at(words, statements.next, 1);
    let names = part_at(words, selects.next, 1);
    let ends = part_at(words, names.next, 1);
    let types = types_at(words, ends.next);
    let aevt = part_at(words, types.next, 1);
    let avet = part_at(words, aevt.next, 1);
    let eavt = part_at(words, avet.next, 1);
    Parts {
        statements,
        selects,
        names,
        ends,
        types,
        aevt,
        avet,
        eavt,
    }
}

// The part whose count stands at a place. Each of its items is `width` words.
#[tactic(auto, unfolding(crate::specs::Parts::part_at))]
fn part_at(words: &[u64], at: usize, width: usize) -> Part
    requires { 0 < width }
    ensures { result ≡ part_at words.now at width }
{
    let size = words.len();
    if size <= at {
        return no_part(size);
    }
    let count = words[at] as usize;
    let start = at + 1;
    if (size - start) / width < count {
        return no_part(size);
    }
    let taken = count * width;
    Part {
        inside: true,
        at: start,
        count,
        length: taken,
        next: start + taken,
    }
}

// The table of types, whose count stands at a place; where the task does not have types checked, a part that is left out, so that the next
// one begins at that place.
#[tactic(auto, unfolding(crate::specs::Parts::types_at))]
fn types_at(words: &[u64], at: usize) -> Part
    ensures { result ≡ types_at words.now at }
{
    if checks_types(word_at(words, TASK)) {
        part_at(words, at, 1)
    } else {
        left_out(at)
    }
}

// Whether a task has the types of the variables checked.
#[tactic(auto, unfolding(crate::specs::Parts::checks_types))]
pub fn checks_types(task: u64) -> bool
    ensures { result ≡ checks_types task }
{
    SEARCH < task
}

fn left_out(at: usize) -> Part
    ensures { result ≡ left_out at }
{
    Part {
        inside: true,
        at,
        count: 0,
        length: 0,
        next: at,
    }
}

fn no_part(size: usize) -> Part
    ensures { result ≡ no_part size }
{
    Part {
        inside: false,
        at: 0,
        count: 0,
        length: 0,
        next: size,
    }
}

// The words of a part's items, as far as they are there.
pub fn items(words: &[u64], part: Part) -> &[u64]
    ensures { result.now ≡ items_of words.now part }
{
    let rest = &words[part.at.min(words.len())..];
    &rest[..part.length.min(rest.len())]
}

// The word at a place; 0 where there is none.
pub fn word_at(words: &[u64], at: usize) -> u64
    ensures { result ≡ get_or words.now at 0 }
{
    words.get(at).copied().unwrap_or(0)
}

// Whether the third word of each statement is a kind.
fn are_kinds(words: &[u64]) -> bool
    ensures { result ≡ are_kinds words.now }
{
    // by number: with `chunks_exact(STATEMENT)` and `all` the proof did not close
    for i in 0..words.len() / STATEMENT {
        if CONSTANT < words[i * STATEMENT + 2] {
            return false;
        }
    }
    true
}

fn are_bytes(words: &[u64]) -> bool
    ensures { result ≡ are_bytes words.now }
{
    words.iter().all(|word| *word <= LAST_BYTE)
}

// The query that an input of these parts asks.
#[tactic(auto, unfolding(crate::specs::Asked::query_with))]
pub fn read_query(words: &[u64], parts: Parts) -> Query
    ensures { result ≡ query_with words.now parts }
{
    Query {
        variable_count: word_at(words, VARIABLES),
        where_statements: read_statements(items(words, parts.statements), parts.statements.count),
        select: read_selects(items(words, parts.selects), parts.selects.count),
    }
}

// The statements: as many as fit, zeros past them, and the count of all. Apart from `read_selects`, as a function for both would take the
// zero, the length and the reading of one as parameters, and be no shorter.
fn read_statements(words: &[u64], count: usize) -> Statements
    ensures { result ≡ asked_statements words.now count }
{
    let mut items = [ZERO_STATEMENT; MAX_STATEMENTS];
    for i in 0..count.min(MAX_STATEMENTS) {
        items[i] = statement_at(words, i);
    }
    Statements { items, count }
}

#[tactic(auto, unfolding(crate::specs::Asked::asked_statement))]
fn statement_at(words: &[u64], i: usize) -> Statement
    requires { i < max_statements }
    ensures { result ≡ asked_statement words.now i }
{
    let at = i * STATEMENT;
    Statement {
        entity: variable(word_at(words, at)),
        attribute: Aid(word_at(words, at + 1)),
        value: value_of(word_at(words, at + 2), word_at(words, at + 3)),
    }
}

#[tactic(auto, unfolding(crate::specs::Asked::asked_value))]
fn value_of(kind: u64, value: u64) -> QueryValue
    ensures { result ≡ asked_value kind value }
{
    match kind {
        VARIABLE => QueryValue::Var(variable(value)),
        _ => QueryValue::Const(value),
    }
}

#[tactic(auto, unfolding(crate::specs::Asked::asked_var))]
fn variable(number: u64) -> Var
    ensures { result ≡ asked_var number }
{
    Var(number.min(u16::MAX as u64) as u16)
}

// The variables to select, in the same way.
fn read_selects(words: &[u64], count: usize) -> Selects
    ensures { result ≡ asked_selects words.now count }
{
    let mut items = [Var(0); MAX_SELECTS];
    for i in 0..count.min(MAX_SELECTS) {
        items[i] = variable(word_at(words, i));
    }
    Selects { items, count }
}

// The bytes of names, to the front of a buffer. Where there is no room for them, or a number is larger than a byte, nothing is written.
#[tactic(auto, unfolding(crate::specs::Asked::bytes_fit, crate::specs::Asked::bytes_after))]
pub fn read_bytes(words: &[u64], bytes: &mut [u8]) -> bool
    ensures value { result ≡ bytes_fit words.now (length bytes.old) }
    ensures bytes_after { bytes.new ≡ bytes_after words.now bytes.old }
{
    if bytes.len() < words.len() || !are_bytes(words) {
        return false;
    }
    copy_bytes(words, bytes);
    true
}

// By hand, as the library has no copy of words to bytes.
fn copy_bytes(words: &[u64], bytes: &mut [u8])
    requires words_in_bounds { length words.now ≤ length bytes.old }
    requires words_value { are_bytes words.now ≡ true }
    ensures { bytes.new ≡ words.now ++ drop (length words.now) bytes.old }
{
    for (i, word) in words.iter().enumerate() {
        bytes[i] = *word as u8;
    }
}

// The ends of names, to a buffer: those that are given, and past them the last one again, for constants.
pub fn read_ends(words: &[u64], ends: &mut [usize])
    ensures { ends.new ≡ ends_after words.now (length ends.old) }
{
    for (i, end) in ends.iter_mut().enumerate() {
        *end = end_at(words, i);
    }
}

#[tactic(auto, unfolding(crate::specs::Asked::end_of))]
fn end_at(words: &[u64], i: usize) -> usize
    ensures { result ≡ end_of words.now i }
{
    words.get(i).or(words.last()).copied().unwrap_or(0) as usize
}

// How many ends there are, those given and one for each constant, as far as there is room for them.
#[tactic(auto, unfolding(crate::specs::Asked::ends_count))]
pub fn count_ends(given: usize, constants: usize, room: usize) -> usize
    ensures { result ≡ ends_count given constants room }
{
    given.saturating_add(constants).min(room)
}
