// Cases of `replay` over tables: three tables (`given`), how many cases follow, and these. A case is 0 and a plan with a window
// (`evaluations`), or 1 and a query with room (`answers`), or 2: the check of the tables alone, or 3 and a key: the table (0
// aevt, 1 avet, 2 eavt), how many of its words count, and three words. Written are the numbers of the first row that begins with the key
// and of the one past the last, whether its three words are a row, and those rows. Or it is 4 and a plan: whether evaluation refuses it.
use super::{answers, evaluations};
use datom::WORDS;
use replay_given::given::TABLE_WORDS;
use replay_given::numbers::Numbers;
use replay_given::written::{Words, said};
use std::io;
use std::io::Stdout;
use tables::Tables;

// The most cases over the same tables.
const CASES: u64 = 100;

// Tables, and the cases over them.
pub(crate) fn put_case(to: Stdout, numbers: &mut Numbers) -> io::Result<()> {
    let mut aevt = [0; TABLE_WORDS];
    let mut avet = [0; TABLE_WORDS];
    let mut eavt = [0; TABLE_WORDS];
    let tables = Tables {
        aevt: numbers.table(&mut aevt),
        avet: numbers.table(&mut avet),
        eavt: numbers.table(&mut eavt),
    };
    for _ in 0..numbers.number().min(CASES) {
        put_one(to, numbers, &tables)?;
    }
    Ok(())
}

// A case over these tables.
fn put_one(to: Stdout, numbers: &mut Numbers, tables: &Tables) -> io::Result<()> {
    match numbers.number() {
        0 => evaluations::put_case(to, numbers, tables),
        1 => answers::put_case(to, numbers, tables),
        2 => println!(to; "tables {}", said(tables.check())),
        4 => evaluations::put_check(to, numbers, tables),
        _ => {
            let table = match numbers.number() {
                0 => tables.aevt,
                1 => tables.avet,
                _ => tables.eavt,
            };
            put_key(to, numbers, table)
        }
    }
}

// A key, in a table.
fn put_key(to: Stdout, numbers: &mut Numbers, table: &[u64]) -> io::Result<()> {
    let inputs = numbers.number() as usize;
    let first = numbers.number();
    let second = numbers.number();
    let third = numbers.number();
    let mut low = 0;
    let rows = tables::range(table, inputs, first, second, third, &mut low);
    let past = low + rows.len() / WORDS;
    let found = if is_row(table, first, second, third) {
        "a row"
    } else {
        "no row"
    };
    println!(to; "key {low} {past}, {found}:{}", Words(rows))
}

// Whether some row begins with all three words.
fn is_row(table: &[u64], first: u64, second: u64, third: u64) -> bool {
    let mut low = 0;
    !tables::range(table, tables::KEY_WORDS, first, second, third, &mut low).is_empty()
}
