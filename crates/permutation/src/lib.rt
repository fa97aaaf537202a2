// Noblit -- An immutable append-only database
// Copyright 2020 Ruud van Asseldonk

// Licensed under the Apache License, Version 2.0 (the "License");
// you may not use this file except in compliance with the License.
// A copy of the License has been included in the root of the repository.

// Port of src/permutation.rs to Rattle, changed: the counters stand in a fixed array beside their number, more elements than
// it holds are refused with a number, and the step has a form by value under the one that changes a lent state.

// Support functionality to generate permutations.
#![tactic(auto)]

ghost use Rattle.std.specs.Prelude.{◌≡◌};
ghost use Rattle.refusal.specs.Verdict.{answer};
ghost use Rattle.permutation.specs.Swaps.{elements_fault, fresh_of, said_swap, next_swap_of, stepped_of};

use capacity::MAX_ELEMENTS;
use refusal::{Refusal, Rule, Verdict, refuse};

// A state that generates all permutations on n elements.
//
// Its steps yield the indices of the elements to swap. As it yields the swaps that generate the permutations, it yields
// `n! - 1` swaps. The first permutation is that with no swaps applied.
//
// This is the non-recursive version of Heap's algorithm: a counter for each element, and the position to look at next. There is no heap, and a
// damaged number of elements must be representable, as it is refused (40).
#[derive(Clone, Copy)]
pub struct Permutations {
    pub ks: [usize; MAX_ELEMENTS],
    pub n: usize,
    pub i: usize,
}

// The indices of two elements to swap.
#[derive(Clone, Copy)]
pub struct Swap(pub usize, pub usize);

// The answer of the step by value: the next swap, if there is one, and the state after it.
#[derive(Clone, Copy)]
pub struct Stepped {
    pub next: Result<Option<Swap>, Refusal>,
    pub state: Permutations,
}

impl Permutations {
    // The state whose steps are the swaps to generate all permutations on n elements.
    #[tactic(auto, unfolding(crate::specs::Swaps::fresh_of))]
    pub fn new(n: usize) -> Result<Permutations, Refusal>
        ensures { result ≡ answer (fresh_of n).verdict (fresh_of n).state }
    {
        elements_fault(n)?;
        Ok(Permutations {
            ks: [0; MAX_ELEMENTS],
            n,
            i: 0,
        })
    }

    // The next swap, until all permutations have been visited, and the state after it.
    pub fn next_value(self) -> Stepped
        ensures { result ≡ stepped_of self }
    {
        let mut state = self;
        let next = state.next();
        Stepped { next, state }
    }

    // Return the next swap, until all permutations have been visited: the lent state is changed in place.
    #[tactic(auto, using(crate::proofs::Look::steps))]
    pub fn next(&mut self) -> Result<Option<Swap>, Refusal>
        ensures value { result ≡ said_swap (next_swap_of self.old).next }
        ensures state_after { self.new ≡ (next_swap_of self.old).state }
    {
        elements_fault(self.n)?;
        // Not a `for`: the position is part of the state, and where it stops is where the next call goes on.
        while self.i < self.n {
            let k = self.ks[self.i];
            if k < self.i {
                self.ks[self.i] += 1;
                let first = if self.i % 2 == 0 { 0 } else { k };
                let swap = Swap(first, self.i);
                self.i = 0;
                return Ok(Some(swap));
            }
            self.ks[self.i] = 0;
            self.i += 1;
        }
        Ok(None)
    }
}

// 40: more elements than a state has counters for.
#[tactic(auto, unfolding(crate::specs::Swaps::elements_fault))]
fn elements_fault(n: usize) -> Verdict
    ensures { result ≡ elements_fault n }
{
    if MAX_ELEMENTS < n {
        return refuse(Rule::TooManyElements, 0);
    }
    Ok(())
}
