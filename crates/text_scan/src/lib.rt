// Noblit -- An immutable append-only database
// Copyright 2020 Ruud van Asseldonk

// Licensed under the Apache License, Version 2.0 (the "License");
// you may not use this file except in compliance with the License.
// A copy of the License has been included in the root of the repository.

// Port of a scan's line and of `write_slot` of `impl Debug for Plan` of src/plan.rs to Rattle, changed: the formatter is a lent byte
// buffer that a pen writes to, and the names are lent too.
#![tactic(auto)]

ghost use Rattle.std.specs.Prelude.{length, take};
ghost use Rattle.text_pieces.specs.Wrote.{Wrote};
ghost use Rattle.plan.specs.declared.Flow.TheVariants.{OutOut, InOut, InIn};
ghost use Rattle.plan.specs.Plan.{constant_at, first_slot, second_slot};
ghost use Rattle.text_names.specs.Names.{name_of};
ghost use Rattle.text_scan.specs.Line.{shown_name, slot_text_in, index_text, scanned_text, first_label, second_label, flow_line, scan_line};

use capacity::MAX_SLOTS;
use plan::{Flow, Index, Scan, Slot, SlotRecord};
use text_pieces::Pen;

// A plan's slots, and the names that are lent for them: there is an end for each slot.
#[derive(Clone, Copy)]
pub struct SlotNames<'a> {
    pub slots: &'a [SlotRecord; MAX_SLOTS],
    pub names: &'a [u8],
    pub ends: &'a [usize],
}

impl SlotNames<'_> {
    // A scan's line.
    #[tactic(auto, unfolding(crate::specs::Line::scan_line))]
    pub fn write_scan(&self, scan: Scan, pen: &mut Pen)
        ensures { Wrote (scan_line (take (length self.now.ends.now) self.now.slots.now) self.now.names.now self.now.ends.now scan) pen.old pen.new }
    {
        match scan.flow {
            Flow::OutOut => self.write_out_out(scan, pen),
            Flow::InOut => self.write_in_out(scan, pen),
            Flow::InIn => self.write_in_in(scan, pen),
        }
    }

    // As `for machine:0, valve:1 in aevt attribute 5`.
    fn write_out_out(&self, scan: Scan, pen: &mut Pen)
        ensures { Wrote (flow_line OutOut scan.index scan.attribute.0 (slot_text_in self.now.slots.now self.now.names.now self.now.ends.now (first_slot scan).0)
            (slot_text_in self.now.slots.now self.now.names.now self.now.ends.now (second_slot scan).0)) pen.old pen.new }
    {
        let [first, second] = scan.slots();
        pen.write(b"for ");
        self.write_slot(first, pen);
        pen.write(b", ");
        self.write_slot(second, pen);
        write_scanned(scan, pen);
        pen.write(b"\n");
    }

    // As `for valve:1 in aevt attribute 5 (entity=machine:0)`.
    fn write_in_out(&self, scan: Scan, pen: &mut Pen)
        ensures { Wrote (flow_line InOut scan.index scan.attribute.0 (slot_text_in self.now.slots.now self.now.names.now self.now.ends.now (first_slot scan).0)
            (slot_text_in self.now.slots.now self.now.names.now self.now.ends.now (second_slot scan).0)) pen.old pen.new }
    {
        let [first, second] = scan.slots();
        pen.write(b"for ");
        self.write_slot(second, pen);
        write_scanned(scan, pen);
        pen.write(b" (");
        write_first_label(scan.index, pen);
        self.write_slot(first, pen);
        pen.write(b")\n");
    }

    // As `for _ in aevt attribute 9 (entity=valve:1, value=:2)`.
    fn write_in_in(&self, scan: Scan, pen: &mut Pen)
        ensures { Wrote (flow_line InIn scan.index scan.attribute.0 (slot_text_in self.now.slots.now self.now.names.now self.now.ends.now (first_slot scan).0)
            (slot_text_in self.now.slots.now self.now.names.now self.now.ends.now (second_slot scan).0)) pen.old pen.new }
    {
        let [first, second] = scan.slots();
        pen.write(b"for _");
        write_scanned(scan, pen);
        pen.write(b" (");
        write_first_label(scan.index, pen);
        self.write_slot(first, pen);
        pen.write(b", ");
        write_second_label(scan.index, pen);
        self.write_slot(second, pen);
        pen.write(b")\n");
    }

    // A slot: the variable's name, and the slot's index.
    pub fn write_slot(&self, slot: Slot, pen: &mut Pen)
        ensures { Wrote (slot_text_in self.now.slots.now self.now.names.now self.now.ends.now slot.0) pen.old pen.new }
    {
        self.write_name(slot, pen);
        pen.write(b":");
        pen.write_decimal(u64::from(slot.0));
    }

    // A variable's name; a constant's is not read.
    fn write_name(&self, slot: Slot, pen: &mut Pen)
        ensures { Wrote (shown_name (constant_at (take (length self.now.ends.now) self.now.slots.now) slot.0) (name_of self.now.names.now self.now.ends.now slot.0)) pen.old pen.new }
    {
        let name = if text_names::is_constant(*self.slots, self.ends.len(), slot) {
            &[]
        } else {
            text_names::get_name(slot, self.names, self.ends)
        };
        pen.write_escaped(name);
    }
}

// A scan's index, and the attribute that is scanned.
fn write_scanned(scan: Scan, pen: &mut Pen)
    ensures { Wrote (scanned_text scan.index scan.attribute.0) pen.old pen.new }
{
    write_index(scan.index, pen);
    pen.write(b" attribute ");
    pen.write_decimal(scan.attribute.0);
}

fn write_index(index: Index, pen: &mut Pen)
    ensures { Wrote (index_text index) pen.old pen.new }
{
    match index {
        Index::Aevt => pen.write(b" in aevt"),
        Index::Avet => pen.write(b" in avet"),
        Index::Eavt => pen.write(b" in eavt"),
    }
}

// Labels follow index order.
fn write_first_label(index: Index, pen: &mut Pen)
    ensures { Wrote (first_label index) pen.old pen.new }
{
    match index {
        Index::Aevt | Index::Eavt => pen.write(b"entity="),
        Index::Avet => pen.write(b"value="),
    }
}

fn write_second_label(index: Index, pen: &mut Pen)
    ensures { Wrote (second_label index) pen.old pen.new }
{
    match index {
        Index::Aevt | Index::Eavt => pen.write(b"value="),
        Index::Avet => pen.write(b"entity="),
    }
}
