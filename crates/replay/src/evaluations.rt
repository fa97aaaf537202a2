// Cases of `replay` over tables: a plan (`given`), the row to start at and the words of room. Written is what evaluation answers.
// The buffer that is lent is shown whole, so that words past the last written row, and all words where the answer is a refusal, are seen to
// stay. compare/evaluations.rs makes cases and answers.
use eval::Shown;
use replay_given::numbers::Numbers;
use replay_given::written::{Words, said};
use std::io;
use std::io::Stdout;
use tables::Tables;

// The most words of room.
const ROOM: usize = 6;

// A plan, and a window of its rows into a buffer of which `room` words are lent.
pub(crate) fn put_case(to: Stdout, numbers: &mut Numbers, tables: &Tables) -> io::Result<()> {
    let plan = numbers.plan();
    let from = numbers.number();
    let room = numbers.number() as usize;
    let mut buffer = [77; ROOM];
    let Some(rows) = buffer.get_mut(..room) else {
        return Ok(());
    };
    let answer = eval::evaluate(plan, tables, from, rows);
    let Shown { count, more } = answer.unwrap_or(Shown {
        count: 0,
        more: false,
    });
    let follows = if more { "more follow" } else { "none follows" };
    println!(to;
        "{}, rows {count}, {follows}, buffer{}",
        said(answer.map(|_| ())),
        Words(rows)
    )
}

// A plan: whether evaluation refuses it over these tables.
pub(crate) fn put_check(to: Stdout, numbers: &mut Numbers, tables: &Tables) -> io::Result<()> {
    println!(to; "evaluation {}", said(eval::check(numbers.plan(), tables)))
}
