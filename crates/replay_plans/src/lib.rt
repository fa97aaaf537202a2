// The cases of `replay` that want no tables, a module for each kind (docs/REPLAY.md): the swaps, plans and their parts, the text of a
// plan, plans stored and read, queries planned, checked, searched and typed.
#![tactic(auto)]

pub mod images;
pub mod plans;
pub mod queries;
pub mod searches;
pub mod swaps;
pub mod texts;
pub mod typed;
