// A swap state as words, for callers in other languages: how many elements, the position, and a counter for each of MAX_ELEMENTS elements.
//
// Any words say a state. One of more elements than there are counters is refused by the step (40).
#![tactic(auto)]

ghost use Rattle.std.specs.Prelude.{◌≡◌};
ghost use Rattle.loader_swap_words.specs.State.{counters_in, state_of_words, words_of_state};

use capacity::MAX_ELEMENTS;
use permutation::Permutations;

// Where each part of a state starts, and how many words it has.
const ELEMENT_COUNT_AT: usize = 0;

const POSITION_AT: usize = 1;

const COUNTERS_AT: usize = 2;

pub const STATE_WORDS: usize = COUNTERS_AT + MAX_ELEMENTS;

// The state that the words say.
pub fn read_state(words: &[u64; STATE_WORDS]) -> Permutations
    ensures { result ≡ state_of_words words.now }
{
    let ks = read_counters(words);
    Permutations {
        ks,
        n: words[ELEMENT_COUNT_AT] as usize,
        i: words[POSITION_AT] as usize,
    }
}

fn read_counters(words: &[u64; STATE_WORDS]) -> [usize; MAX_ELEMENTS]
    ensures { result ≡ counters_in words.now }
{
    let mut ks = [0usize; MAX_ELEMENTS];
    for (i, k) in ks.iter_mut().enumerate() {
        *k = words[COUNTERS_AT + i] as usize;
    }
    ks
}

// The words of a state.
pub fn words_of_state(state: Permutations) -> [u64; STATE_WORDS]
    ensures { result ≡ words_of_state state }
{
    let mut words = [0u64; STATE_WORDS];
    words[ELEMENT_COUNT_AT] = state.n as u64;
    words[POSITION_AT] = state.i as u64;
    for (i, k) in state.ks.iter().enumerate() {
        words[COUNTERS_AT + i] = *k as u64;
    }
    words
}
