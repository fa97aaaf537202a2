// Noblit -- An immutable append-only database
// Copyright 2020 Ruud van Asseldonk

// Licensed under the Apache License, Version 2.0 (the "License");
// you may not use this file except in compliance with the License.
// A copy of the License has been included in the root of the repository.

// Port of the iterator of src/eval.rs to Rattle, changed: it does not hand out boxed rows, but writes a window of them to a lent
// buffer.
ghost use Rattle.std.specs.Prelude.{◌≡◌, ◌++◌, ◌+◌, ◌/◌, ◌≤◌, ◌<◌, length, take, drop};
ghost use Rattle.eval.specs.Words.{scans_in};
ghost use Rattle.visits.specs.Visits.{tables_of};
ghost use Rattle.eval.specs.Steps.{Ready};
ghost use Rattle.eval.specs.Next.{innermost, remaining, Advanced, Skipped, selected_by, Named, rows_at, Shows};

use super::walk::{LAID_WORDS, Nest};

// How many rows were written, and whether another follows. The two do not hang together: a buffer may be too small for the first.
#[derive(Clone, Copy)]
pub struct Shown {
    pub count: usize,
    pub more: bool,
}

// Write the rows of the visits that are still to come, from number `from` on, as many as fit in the buffer. The state then stands past
// one visit more, that was taken to see whether it is there.
pub(crate) fn show(
    from: u64,
    nest: &Nest,
    selects: &[u64],
    iters: &mut [usize],
    slots: &mut [u64],
    rows: &mut [u64],
) -> Shown
    requires ready { Ready (tables_of nest.now.aevt.now nest.now.avet.now nest.now.eavt.now) (scans_in nest.now.words.now) nest.now.initial.now iters.old slots.old (innermost (scans_in nest.now.words.now)) }
    requires named { (Named selects.now (length slots.old)) × (0 < length selects.now) }
    ensures shows { Shows (rows_at (tables_of nest.now.aevt.now nest.now.avet.now nest.now.eavt.now) (scans_in nest.now.words.now) nest.now.initial.now selects.now
        (remaining (tables_of nest.now.aevt.now nest.now.avet.now nest.now.eavt.now) (scans_in nest.now.words.now) nest.now.initial.now iters.old))
        (length selects.now) from rows.old result.count result.more rows.new }
    ensures iters_after { remaining (tables_of nest.now.aevt.now nest.now.avet.now nest.now.eavt.now) (scans_in nest.now.words.now) nest.now.initial.now iters.new
        ≡ drop (from + length rows.old / length selects.now + 1)
        (remaining (tables_of nest.now.aevt.now nest.now.avet.now nest.now.eavt.now) (scans_in nest.now.words.now) nest.now.initial.now iters.old) }
{
    if !skip(from, nest, iters, slots) {
        return Shown {
            count: 0,
            more: false,
        };
    }
    let width = selects.len();
    let room = rows.len() / width;
    for count in 0..room {
        if !next(nest, iters, slots) {
            return Shown { count, more: false };
        }
        put_row(selects, slots, count * width, rows);
    }
    let more = next(nest, iters, slots);
    Shown { count: room, more }
}

// Pass over a number of visits. Returns whether there were as many.
fn skip(count: u64, nest: &Nest, iters: &mut [usize], slots: &mut [u64]) -> bool
    requires { Ready (tables_of nest.now.aevt.now nest.now.avet.now nest.now.eavt.now) (scans_in nest.now.words.now) nest.now.initial.now iters.old slots.old (innermost (scans_in nest.now.words.now)) }
    ensures { Skipped (tables_of nest.now.aevt.now nest.now.avet.now nest.now.eavt.now) (scans_in nest.now.words.now) nest.now.initial.now iters.old count result iters.new slots.new }
{
    for _ in 0..count {
        if !next(nest, iters, slots) {
            return false;
        }
    }
    true
}

// Take the next visit of all scans. Returns whether there was one.
fn next(nest: &Nest, iters: &mut [usize], slots: &mut [u64]) -> bool
    requires { Ready (tables_of nest.now.aevt.now nest.now.avet.now nest.now.eavt.now) (scans_in nest.now.words.now) nest.now.initial.now iters.old slots.old (innermost (scans_in nest.now.words.now)) }
    ensures { Advanced (tables_of nest.now.aevt.now nest.now.avet.now nest.now.eavt.now) (scans_in nest.now.words.now) nest.now.initial.now iters.old result iters.new slots.new }
{
    let innermost_iter = nest.words.len() / LAID_WORDS - 1;
    nest.increment(innermost_iter, iters, slots)
}

// Write the selected slots to the buffer, from `at` on.
fn put_row(selects: &[u64], slots: &[u64], at: usize, rows: &mut [u64])
    requires named { Named selects.now (length slots.now) }
    requires selects_in_bounds { at + length selects.now ≤ length rows.old }
    ensures { rows.new ≡ take at rows.old ++ selected_by selects.now slots.now ++ drop (at + length selects.now) rows.old }
{
    for (j, select) in selects.iter().enumerate() {
        rows[at + j] = slots[*select as usize];
    }
}
