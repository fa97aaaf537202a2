// Cases of `replay`: a query and a table of types (`given`). Written is what type inference says of them, and its array of types whole.
// compare/types.rs makes cases and answers.
use capacity::MAX_SLOTS;
use replay_given::given::TABLE_WORDS;
use replay_given::numbers::Numbers;
use replay_given::written::{Words, said};
use std::io;
use std::io::Stdout;

// A query, and its table.
pub fn put_case(to: Stdout, numbers: &mut Numbers) -> io::Result<()> {
    let query = numbers.query();
    let mut room = [0; TABLE_WORDS];
    let inferred = types::infer_types(query, numbers.table(&mut room));
    let types = inferred.unwrap_or([0; MAX_SLOTS]);
    println!(to; "types {},{}", said(inferred.map(|_| ())), Words(&types))
}
