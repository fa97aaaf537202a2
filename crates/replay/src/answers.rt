// Cases of `replay` over tables: a query (`given`) and the words of room. Each plan listed from the query's gets a line: its rows in
// windows of that room, from row 0 on until none follows. A window is the count of rows, 1 if another follows, and the buffer whole,
// whose words are 0 before. compare/answers.rs makes cases and answers.
use eval::Shown;
use plan::Plan;
use replay_given::numbers::Numbers;
use replay_given::written::Words;
use replay_plans::queries;
use std::io;
use std::io::Stdout;
use tables::Tables;

// The most words of room, windows of a plan, and plans of a query.
const ROOM: usize = 16;

const WINDOWS: usize = 60;

const LISTED: usize = 500;

// A query. One that is refused has no line.
pub(crate) fn put_case(to: Stdout, numbers: &mut Numbers, tables: &Tables) -> io::Result<()> {
    let query = numbers.query();
    let room = numbers.number() as usize;
    let Ok(mut plan) = planner::plan(query) else {
        return Ok(());
    };
    for _ in 0..LISTED {
        put_rows(to, plan, tables, room)?;
        println!(to)?;
        if !queries::advance(&mut plan) {
            return Ok(());
        }
    }
    Ok(())
}

// The rows of a plan, window by window.
fn put_rows(to: Stdout, plan: Plan, tables: &Tables, room: usize) -> io::Result<()> {
    let mut from = 0;
    for _ in 0..WINDOWS {
        from = put_window(to, plan, tables, from, room)?;
        if from == 0 {
            return Ok(());
        }
    }
    Ok(())
}

// A window into a buffer of which `room` words are lent. Returns the row after it, or 0 if none follows.
fn put_window(to: Stdout, plan: Plan, tables: &Tables, from: u64, room: usize) -> io::Result<u64> {
    let mut buffer = [0; ROOM];
    let Some(rows) = buffer.get_mut(..room) else {
        return Ok(0);
    };
    let Shown { count, more } = eval::evaluate(plan, tables, from, rows).unwrap_or(Shown {
        count: 0,
        more: false,
    });
    print!(to; " {count} {}:{},", more as u8, Words(rows))?;
    if more {
        Ok(from.wrapping_add(count as u64))
    } else {
        Ok(0)
    }
}
