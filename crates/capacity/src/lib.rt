// The capacities of document 01, "What crosses the counter", as 02's Ticket 6 raises them: this is the one place of the code that has them, and
// specs/Capacity.antt the one place of the definitions.

#![tactic(auto)]

// A query has at most this many statements; a plan, which has a scan for each, at most as many scans.
pub const MAX_STATEMENTS: usize = 63;

pub const MAX_SCANS: usize = MAX_STATEMENTS;

// Variables and constants together.
pub const MAX_SLOTS: usize = 126;

pub const MAX_SELECTS: usize = 32;

// The search goes through every order of the statements.
pub const MAX_SEARCHED: usize = 6;

// Swaps reorder statements.
pub const MAX_ELEMENTS: usize = MAX_STATEMENTS;
