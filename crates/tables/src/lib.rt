// Sorted tables of facts (01, "Tables and rows"): their check, and the range finder. Added: the Rust has tree iterators here.
#![tactic(auto)]

ghost use Rattle.std.specs.Prelude.{◌≡◌, true, [], ◌∷◌, ◌<◌, Ok};
ghost use Rattle.tables.specs.Rows.{count, row, rows_of, before, ascending, begins, key, FirstRow, PastRows, Range};
ghost use Rattle.tables.specs.Check.{is_among, lengths_fault, order_fault, missing_fault, tables_fault};
ghost use Rattle.tables.specs.Sought.{sought};

use datom::WORDS;
use refusal::{Rule, Verdict, refuse};

// The words that order a table's rows, and that a key can have.
pub const KEY_WORDS: usize = 3;

// A key: the first `inputs` of three words.
#[derive(Clone, Copy)]
struct Key {
    inputs: usize,
    first: u64,
    second: u64,
    third: u64,
}

impl Key {
    // All three words.
    fn whole(first: u64, second: u64, third: u64) -> Key
        ensures { sought result ≡ first ∷ second ∷ third ∷ [] }
    {
        Key {
            inputs: KEY_WORDS,
            first,
            second,
            third,
        }
    }

    // Whether row i comes before the key. There is no largest key: 2^64 - 1 is a word like others.
    fn is_after(&self, table: &[u64], i: usize) -> bool
        requires { i < count table.now }
        ensures { result ≡ before (row table.now i) (sought self.now) }
    {
        if self.inputs == 0 {
            return false;
        }
        let word = table[WORDS * i];
        if self.inputs == 1 || word != self.first {
            return word < self.first;
        }
        let word = table[WORDS * i + 1];
        if self.inputs == 2 || word != self.second {
            return word < self.second;
        }
        table[WORDS * i + 2] < self.third
    }

    // Whether row i begins with the key.
    fn begins(&self, table: &[u64], i: usize) -> bool
        requires { i < count table.now }
        ensures { result ≡ begins (row table.now i) (sought self.now) }
    {
        self.inputs == 0
            || table[WORDS * i] == self.first
                && (self.inputs == 1
                    || table[WORDS * i + 1] == self.second
                        && (self.inputs == 2 || table[WORDS * i + 2] == self.third))
    }
}

// Three tables of the same facts, lent: one for each index.
#[derive(Clone, Copy)]
pub struct Tables<'a> {
    pub aevt: &'a [u64],
    pub avet: &'a [u64],
    pub eavt: &'a [u64],
}

impl Tables<'_> {
    // That nothing is wrong with them, or the first refusal.
    #[tactic(auto, unfolding(crate::specs::Check::tables_fault))]
    pub fn check(&self) -> Verdict
        ensures { result ≡ tables_fault self.now.aevt.now self.now.avet.now self.now.eavt.now }
    {
        check_lengths(self.aevt.len(), self.avet.len(), self.eavt.len())?;
        check_order(self.aevt, 0)?;
        check_order(self.avet, 1)?;
        check_order(self.eavt, 2)?;
        check_missing(self.aevt, self.avet, self.eavt)
    }
}

// 1: a table's length is no multiple of the words a row, or lengths differ.
fn check_lengths(aevt: usize, avet: usize, eavt: usize) -> Verdict
    ensures { result ≡ lengths_fault aevt avet eavt }
{
    if aevt % WORDS != 0 || avet != aevt || eavt != aevt {
        return refuse(Rule::TableLength, 0);
    }
    Ok(())
}

// 2: a table is not strictly ascending.
fn check_order(table: &[u64], place: usize) -> Verdict
    ensures fault { result ≡ order_fault table.now place }
    ensures fine { result ≡ Ok tt → ascending (rows_of table.now) ≡ true }
{
    if !is_ascending(table) {
        return refuse(Rule::TableOrder, place);
    }
    Ok(())
}

// Whether each row comes before the next.
fn is_ascending(table: &[u64]) -> bool
    ensures { result ≡ ascending (rows_of table.now) }
{
    for i in 1..table.len() / WORDS {
        let key = Key::whole(table[WORDS * i], table[WORDS * i + 1], table[WORDS * i + 2]);
        if !key.is_after(table, i - 1) {
            return false;
        }
    }
    true
}

// 3: the first row of aevt whose triple is missing in avet or eavt. These two are ascending, so each is searched by halves.
fn check_missing(aevt: &[u64], avet: &[u64], eavt: &[u64]) -> Verdict
    requires { (ascending (rows_of avet.now) ≡ true) × (ascending (rows_of eavt.now) ≡ true) }
    ensures { result ≡ missing_fault (rows_of avet.now) (rows_of eavt.now) (rows_of aevt.now) 0 }
{
    for i in 0..aevt.len() / WORDS {
        let attribute = aevt[WORDS * i];
        let entity = aevt[WORDS * i + 1];
        let value = aevt[WORDS * i + 2];
        if !is_row(avet, attribute, value, entity) || !is_row(eavt, entity, attribute, value) {
            return refuse(Rule::TableMissing, i);
        }
    }
    Ok(())
}

// Whether a row of these words is in the table: of an ascending one, it is where the first that does not come before it stands.
fn is_row(table: &[u64], first: u64, second: u64, third: u64) -> bool
    ensures { ascending (rows_of table.now) ≡ true → result ≡ is_among (first ∷ second ∷ third ∷ []) (rows_of table.now) }
{
    let key = Key::whole(first, second, third);
    let i = first_row(table, &key);
    i < table.len() / WORDS && key.begins(table, i)
}

// The rows that begin with the key, the first `inputs` of the three words, as a part of the table that starts in its middle. `begin`
// then holds the number of the part's first row; where no row begins with the key, of the first that comes after it.
pub fn range<'a>(
    table: &'a [u64],
    inputs: usize,
    first: u64,
    second: u64,
    third: u64,
    begin: &mut usize,
) -> &'a [u64]
    ensures { Range table.now (key inputs first second third) result.now begin.new }
{
    let key = Key {
        inputs,
        first,
        second,
        third,
    };
    let from = first_row(table, &key);
    let to = past_rows(table, from, &key);
    *begin = from;
    &table[WORDS * from..WORDS * to]
}

// The first row that does not come before the key, by halves.
fn first_row(table: &[u64], key: &Key) -> usize
    ensures { FirstRow table.now (sought key.now) result }
{
    let mut low = 0;
    let mut high = table.len() / WORDS;
    while low < high {
        let middle = low + (high - low) / 2;
        if key.is_after(table, middle) {
            low = middle + 1;
        } else {
            high = middle;
        }
    }
    low
}

// Past the rows that begin with the key, which stand from `from` on: in steps of 1, 2, 4 and so on rows, and by halves within the last.
fn past_rows(table: &[u64], from: usize, key: &Key) -> usize
    requires { FirstRow table.now (sought key.now) from }
    ensures { PastRows table.now (sought key.now) from result }
{
    let mut low = from;
    let mut high = table.len() / WORDS;
    let mut step = 1;
    // A step looks at its last row. Where that row does not begin with the key, the end is within the step, which is then longer than
    // what is left. Most ranges are short, and an empty one costs one look.
    // Not a `for`: how far a step goes depends on what the one before found.
    while step <= high - low {
        let last = low + (step - 1);
        if key.begins(table, last) {
            low = last + 1;
            step = 2 * step;
        } else {
            high = last;
        }
    }
    while low < high {
        let middle = low + (high - low) / 2;
        if key.begins(table, middle) {
            low = middle + 1;
        } else {
            high = middle;
        }
    }
    low
}
