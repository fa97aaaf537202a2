// A stored plan, as 02's Ticket 2 says: what writing and reading it answer. The definitions stand in specs/, the code in `image_write` and
// `image_read`.
#![tactic(auto)]

// The widths of the fields: the counts of scans, slots and selects; a slot's mark and a word; a code; a slot's number.
pub const SCAN_COUNT_BITS: usize = 6;

pub const SLOT_COUNT_BITS: usize = 7;

pub const SELECT_COUNT_BITS: usize = 6;

pub const MARK_BITS: usize = 1;

pub const WORD_BITS: usize = 64;

pub const CODE_BITS: usize = 2;

pub const SLOT_BITS: usize = 7;

// The three counts together, and a scan.
pub const COUNTS_BITS: usize = 19;

pub const SCAN_BITS: usize = 82;
