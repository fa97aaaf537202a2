// Noblit -- An immutable append-only database
// Copyright 2020 Ruud van Asseldonk

// Licensed under the Apache License, Version 2.0 (the "License");
// you may not use this file except in compliance with the License.
// A copy of the License has been included in the root of the repository.

// Port of the core of src/eval.rs to Rattle, changed: boxed iterators are pairs of positions in a lent table, `View` is three
// lent tables, and the scans are lent as words, because a scan by value would be copied at every row.
ghost use Rattle.std.specs.Prelude.{◌≡◌, ◌<◌, length, get_or};
ghost use Rattle.tables.specs.Rows.{count, row, key};
ghost use Rattle.plan.specs.Codes.{index_of_code};
ghost use Rattle.plan.specs.Plan.{zero_scan};
ghost use Rattle.visits.specs.Visits.{tables_of, table_of};
ghost use Rattle.eval.specs.Words.{scans_in, LiesAt, Laid};
ghost use Rattle.eval.specs.Steps.{key_of, filled_from, Found, Ascend, Ready, Stepped};

use datom::WORDS;
use plan::{AEVT, AVET, EAVT, IN_OUT, OUT_OUT};

// A scan's words: its table's number, how many inputs it has, its attribute, and its two slots in index order.
pub(crate) const LAID_WORDS: usize = 5;

// The words of an iterator in the state: its position and its end.
pub(crate) const ITER_WORDS: usize = 2;

// The rows that a scan has left: the position of the one that it takes next, and the position past its last.
#[derive(Clone, Copy)]
pub(crate) struct Iter {
    pub position: usize,
    pub end: usize,
}

// What the nested loops run over, and no step changes: the scans as words, three sorted tables, and what the slots held before any scan, which
// nothing reads and the contracts name.
#[derive(Clone, Copy)]
pub(crate) struct Nest<'a> {
    pub words: &'a [u64],
    pub aevt: &'a [u64],
    pub avet: &'a [u64],
    pub eavt: &'a [u64],
    pub initial: &'a [u64],
    ghost laid: { Laid words.now (length initial.now) },
    ghost ascend: { Ascend (tables_of aevt.now avet.now eavt.now) },
}

impl<'a> Nest<'a> {
    // Increment the i-th iterator.
    //
    // If it is exhausted, increment the (i-1)-th iterator and reset the i-th one, etc., until the 0-th iterator is exhausted.
    //
    // Returns whether a new value was successfully stored.
    pub(crate) fn increment(&self, i: usize, iters: &mut [usize], slots: &mut [u64]) -> bool
        requires { Ready (tables_of self.now.aevt.now self.now.avet.now self.now.eavt.now) (scans_in self.now.words.now) self.now.initial.now iters.old slots.old i }
        ensures { Stepped (tables_of self.now.aevt.now self.now.avet.now self.now.eavt.now) (scans_in self.now.words.now) self.now.initial.now iters.old i result iters.new slots.new }
    {
        let table = self.table(self.words[LAID_WORDS * i]);
        loop {
            let position = iters[ITER_WORDS * i];
            let end = iters[ITER_WORDS * i + 1];
            if position < end {
                iters[ITER_WORDS * i] = position + 1;
                fill_slots(i, self.words, &table[WORDS * position..WORDS * end], slots);
                return true;
            }
            if i == 0 {
                return false;
            }
            if !self.increment(i - 1, iters, slots) {
                return false;
            }
            let iter = get_iter(i, self.words, table, slots);
            iters[ITER_WORDS * i] = iter.position;
            iters[ITER_WORDS * i + 1] = iter.end;
        }
    }

    // The table with this number.
    pub(crate) fn table(&self, number: u64) -> &'a [u64]
        ensures { result.now ≡ table_of (tables_of self.now.aevt.now self.now.avet.now self.now.eavt.now) (index_of_code number) }
    {
        match number {
            AEVT => self.aevt,
            AVET => self.avet,
            _ => self.eavt,
        }
    }
}

// Given the current slot values, produce the iterator for scan i, which runs over this table.
pub(crate) fn get_iter(i: usize, words: &[u64], table: &[u64], slots: &[u64]) -> Iter
    requires { LiesAt words.now (length slots.now) i }
    ensures { Found table.now (key_of (get_or (scans_in words.now) i zero_scan) slots.now) result.position result.end }
{
    let number = words[LAID_WORDS * i];
    let inputs = words[LAID_WORDS * i + 1] as usize + 1;
    let attribute = words[LAID_WORDS * i + 2];
    let first = slots[words[LAID_WORDS * i + 3] as usize];
    let second = slots[words[LAID_WORDS * i + 4] as usize];
    if number == EAVT {
        return get_scan_bounds(table, inputs, first, attribute, second);
    }
    get_scan_bounds(table, inputs, attribute, first, second)
}

// Return the positions that determine the range to scan over: where the rows that begin with the key, the first `inputs` of the three
// words, begin and end. The range finder hands them on as a part of the table. There is no largest datom here, so the range of the key
// 2^64 - 1 is found too.
fn get_scan_bounds(table: &[u64], inputs: usize, first: u64, second: u64, third: u64) -> Iter
    ensures { Found table.now (key inputs first second third) result.position result.end }
{
    let mut position: usize = 0;
    let rows = tables::range(table, inputs, first, second, third, &mut position);
    Iter {
        position: position,
        end: position + rows.len() / WORDS,
    }
}

// Store what the first of the rows that scan i has left holds for the slots that the scan writes.
fn fill_slots(i: usize, words: &[u64], rows: &[u64], slots: &mut [u64])
    requires lies_at { LiesAt words.now (length slots.old) i }
    requires rows_nonzero { 0 < count rows.now }
    ensures { slots.new ≡ filled_from (row rows.now 0) (get_or (scans_in words.now) i zero_scan) slots.old }
{
    let first = words[LAID_WORDS * i + 3] as usize;
    let second = words[LAID_WORDS * i + 4] as usize;
    match words[LAID_WORDS * i + 1] {
        OUT_OUT => {
            slots[first] = rows[1];
            slots[second] = rows[2];
        }
        IN_OUT => slots[second] = rows[2],
        // Only the iteration matters, the values are known.
        _ => {}
    }
}
