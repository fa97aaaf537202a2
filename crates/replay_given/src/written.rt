// For the cases of `replay`: how answers, plans and words are written.
use plan::{Plan, Scan, SlotDefinition};
use refusal::{Refusal, Verdict};
use std::fmt;
use std::fmt::Display;

// What a call answers: a value, or its refusal.
#[derive(Drop)]
pub struct Answer<T>(pub Result<T, Refusal>);

impl<T: Display> Display for Answer<T> {
    fn fmt<W: fmt::Write>(&self, f: &mut fmt::Formatter<W>) -> fmt::Result {
        match &self.0 {
            Ok(value) => write!(f, "{value}"),
            Err(r) => write!(f, "refused {} at {}", r.rule.number(), r.place),
        }
    }
}

// The items that count, as far as there are so many.
pub fn counted<T>(items: &[T], count: usize) -> &[T] {
    &items[..count.min(items.len())]
}

// What a check says.
pub fn said(verdict: Verdict) -> Answer<&'static str> {
    Answer(verdict.map(|_| "fine"))
}

// Words, with a space before each.
#[derive(Drop)]
pub struct Words<'a, T>(pub &'a [T]);

impl<'a, T: Display> Display for Words<'a, T> {
    fn fmt<W: fmt::Write>(&self, f: &mut fmt::Formatter<W>) -> fmt::Result {
        for word in self.0 {
            write!(f, " {word}")?;
        }
        Ok(())
    }
}

#[derive(Drop)]
pub struct WrittenScan(pub Scan);

impl Display for WrittenScan {
    fn fmt<W: fmt::Write>(&self, f: &mut fmt::Formatter<W>) -> fmt::Result {
        let scan = self.0;
        write!(
            f,
            "scan {} {} {} {} {}",
            plan::index_code(scan.index),
            plan::flow_code(scan.flow),
            scan.entity.0,
            scan.attribute.0,
            scan.value.0
        )
    }
}

// The scans, slots and selects of a plan that count.
#[derive(Drop)]
pub struct WrittenPlan<'a>(pub &'a Plan);

impl<'a> Display for WrittenPlan<'a> {
    fn fmt<W: fmt::Write>(&self, f: &mut fmt::Formatter<W>) -> fmt::Result {
        let plan = self.0;
        for scan in counted(&plan.scans, plan.scan_count) {
            write!(f, "{}, ", WrittenScan(*scan))?;
        }
        for slot in counted(&plan.slots, plan.slot_count) {
            match slot.definition {
                SlotDefinition::Variable => write!(f, "variable, ")?,
                SlotDefinition::Constant(value) => write!(f, "constant {value}, ")?,
            }
        }
        for (i, slot) in counted(&plan.select, plan.select_count).iter().enumerate() {
            if 0 < i {
                write!(f, ", ")?;
            }
            write!(f, "select {}", slot.0)?;
        }
        Ok(())
    }
}

// The indexes of scans, in one word.
#[derive(Drop)]
pub struct Indexes<'a>(pub &'a [Scan]);

impl<'a> Display for Indexes<'a> {
    fn fmt<W: fmt::Write>(&self, f: &mut fmt::Formatter<W>) -> fmt::Result {
        for scan in self.0 {
            write!(f, "{}", plan::index_code(scan.index))?;
        }
        Ok(())
    }
}
