// The part of noblit's datoms that queries, plans and tables name. Entities, values and constants are u64 here.

// An attribute's number. Variables, slots and attributes are three kinds, and are never mixed.
#![tactic(auto)]

#[derive(Clone, Copy)]
pub struct Aid(pub u64);

// The words of a table's row.
pub const WORDS: usize = 3;
