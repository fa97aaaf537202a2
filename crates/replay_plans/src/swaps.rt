// Cases of `replay`: what the steps of 005 give. A case is 0, a number of elements and a number of steps: the swaps from a fresh state
// on, and the order after each. Or it is 1, a state's elements, its position and its counters, as many as a state has: four steps of that
// state, which may be damaged, two by each form. compare/swaps.rs makes cases and answers.
ghost use Rattle.std.specs.Prelude.{◌≡◌};
ghost use Rattle.permutation.specs.Swaps.{stepped_of};

use capacity::MAX_ELEMENTS;
use permutation::{Permutations, Stepped, Swap};
use refusal::Refusal;
use replay_given::numbers::Numbers;
use replay_given::written::{Answer, Words, counted};
use std::io::Stdout;
use std::{array, io};

// The state of no elements, from which a listing goes on where its own is refused.
const NO_ELEMENTS: Permutations = Permutations {
    ks: [0; MAX_ELEMENTS],
    n: 0,
    i: 0,
};

// A listing, or a state.
pub fn put_case(to: Stdout, numbers: &mut Numbers) -> io::Result<()> {
    if numbers.number() == 0 {
        put_listing(to, numbers)
    } else {
        put_state(to, numbers)
    }
}

// What the first steps of n elements give, and the order after each.
fn put_listing(to: Stdout, numbers: &mut Numbers) -> io::Result<()> {
    let n = numbers.number() as usize;
    let steps = numbers.number();
    let fresh = Permutations::new(n);
    print!(to; "{}", Answer(fresh.map(|_| "fresh")))?;
    let mut order = letters();
    put_order(to, &order, n)?;
    let mut state = fresh.unwrap_or(NO_ELEMENTS);
    for _ in 0..steps {
        let next = state.next();
        put_next(to, next)?;
        if let Ok(Some(Swap(a, b))) = next {
            if a < MAX_ELEMENTS && b < MAX_ELEMENTS {
                order.swap(a, b);
            }
        }
        put_order(to, &order, n)?;
    }
    Ok(())
}

// The letters, in their order, and again from the first.
fn letters() -> [u8; MAX_ELEMENTS] {
    array::from_fn(|j| b'a' + (j % 26) as u8)
}

// The first n letters of an order.
fn put_order(to: Stdout, order: &[u8], n: usize) -> io::Result<()> {
    to.write_all(b" ")?;
    to.write_all(counted(order, n))?;
    to.write_all(b"\n")
}

// The swap of an answer, or that there is none, or the refusal.
fn put_next(to: Stdout, next: Result<Option<Swap>, Refusal>) -> io::Result<()> {
    match next {
        Ok(Some(Swap(a, b))) => print!(to; "swap {a} {b}"),
        Ok(None) => print!(to; "none"),
        Err(r) => print!(to; "{}", Answer::<u64>(Err(r))),
    }
}

// Four steps of a state, two by each form.
fn put_state(to: Stdout, numbers: &mut Numbers) -> io::Result<()> {
    let n = numbers.number() as usize;
    let i = numbers.number() as usize;
    let mut ks = [0; MAX_ELEMENTS];
    for k in ks.iter_mut() {
        *k = numbers.number() as usize;
    }
    let state = Permutations { ks, n, i };
    let first = state.next_value();
    put_step(to, first)?;
    put_step(to, next_lent(state))?;
    put_step(to, next_lent(first.state))?;
    put_step(to, first.state.next_value())
}

// The step by the lent form: a local is lent to `next`.
fn next_lent(mut state: Permutations) -> Stepped
    ensures { result ≡ stepped_of state }
{
    let next = state.next();
    Stepped { next, state }
}

// An answer, and the state after it.
fn put_step(to: Stdout, step: Stepped) -> io::Result<()> {
    put_next(to, step.next)?;
    let state = step.state;
    println!(to;
        " counters{} position {}",
        Words(counted(&state.ks, state.n)),
        state.i
    )
}
