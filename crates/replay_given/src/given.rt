// Queries, plans and tables given as decimal numbers, for the cases of `replay` and for the benchmarks.
//
// A query: its counts of variables, statements and selects; a statement is four numbers (entity, attribute, 1 for a constant, its
// value), a select one.
//
// A plan: its counts of scans, slots and selects as it claims them, how many of each follow, and these: a scan is five numbers
// (index 0 aevt, 1 avet, 2 eavt; flow 0 out-out, 1 in-out, 2 in-in; entity, attribute, value), a slot two (1 for a constant, its
// value), a select one.
//
// Tables: for each of aevt, avet and eavt how many words it has, and these.
use super::numbers::Numbers;
use capacity::{MAX_SELECTS, MAX_STATEMENTS};
use datom::Aid;
use plan::{Plan, Scan, Slot, SlotDefinition, SlotRecord};
use query::{Query, QueryValue, Selects, Statement, Statements, Var, ZERO_STATEMENT};

// The most words that a table has here.
pub const TABLE_WORDS: usize = 1800;

impl Numbers<'_> {
    // A query. Statements and selects past the capacity are passed over, up to as many again.
    pub fn query(&mut self) -> Query {
        let variable_count = self.number();
        let mut where_statements = Statements {
            items: [ZERO_STATEMENT; MAX_STATEMENTS],
            count: self.number() as usize,
        };
        let mut select = Selects {
            items: [Var(0); MAX_SELECTS],
            count: self.number() as usize,
        };
        for i in 0..where_statements.count.min(2 * MAX_STATEMENTS) {
            let statement = self.statement();
            if let Some(item) = where_statements.items.get_mut(i) {
                *item = statement;
            }
        }
        for i in 0..select.count.min(2 * MAX_SELECTS) {
            let variable = variable(self.number());
            if let Some(item) = select.items.get_mut(i) {
                *item = variable;
            }
        }
        Query {
            variable_count,
            where_statements,
            select,
        }
    }

    fn statement(&mut self) -> Statement {
        Statement {
            entity: variable(self.number()),
            attribute: Aid(self.number()),
            value: self.query_value(),
        }
    }

    fn query_value(&mut self) -> QueryValue {
        match self.number() {
            1 => QueryValue::Const(self.number()),
            _ => QueryValue::Var(variable(self.number())),
        }
    }

    // A plan.
    pub fn plan(&mut self) -> Plan {
        let mut plan = Plan::empty();
        plan.scan_count = self.number() as usize;
        plan.slot_count = self.number() as usize;
        plan.select_count = self.number() as usize;
        let scans = self.number() as usize;
        let slots = self.number() as usize;
        let selects = self.number() as usize;
        for scan in plan.scans.iter_mut().take(scans) {
            *scan = self.scan();
        }
        for slot in plan.slots.iter_mut().take(slots) {
            *slot = self.slot_record();
        }
        for select in plan.select.iter_mut().take(selects) {
            *select = slot(self.number());
        }
        plan
    }

    fn scan(&mut self) -> Scan {
        Scan {
            index: plan::index_of_code(self.number()),
            flow: plan::flow_of_code(self.number()),
            entity: slot(self.number()),
            attribute: Aid(self.number()),
            value: slot(self.number()),
        }
    }

    fn slot_record(&mut self) -> SlotRecord {
        let is_constant = self.number() == 1;
        let value = self.number();
        SlotRecord {
            definition: if is_constant {
                SlotDefinition::Constant(value)
            } else {
                SlotDefinition::Variable
            },
        }
    }

    // A table: its length, and its words; one that does not fit is read as an empty one.
    pub fn table<'b>(&mut self, room: &'b mut [u64; TABLE_WORDS]) -> &'b [u64] {
        let length = self.number();
        if length > TABLE_WORDS as u64 {
            return &room[..0];
        }
        let words = &mut room[..length as usize];
        for word in words.iter_mut() {
            *word = self.number();
        }
        words
    }
}

fn variable(number: u64) -> Var {
    Var((number % 65536) as u16)
}

// The slot of a number.
pub fn slot(number: u64) -> Slot {
    Slot((number % 65536) as u16)
}
