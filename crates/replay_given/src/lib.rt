// What the cases of `replay` and the benchmarks read, and what the cases write: decimal numbers in a text (`numbers`); queries, plans and
// tables given as such numbers (`given`); answers, plans and words as they are written (`written`).
#![tactic(auto)]

pub mod given;
pub mod numbers;
pub mod written;
