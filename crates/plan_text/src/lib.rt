// Noblit -- An immutable append-only database
// Copyright 2020 Ruud van Asseldonk

// Licensed under the Apache License, Version 2.0 (the "License");
// you may not use this file except in compliance with the License.
// A copy of the License has been included in the root of the repository.

// Port of `impl Debug for Plan` of src/plan.rs to Rattle, changed: the formatter is a lent byte buffer that a pen writes to, the names are
// lent too, and a constant prints in decimal.
#![tactic(auto)]

ghost use Rattle.std.specs.Prelude.{◌≡◌, length, take};
ghost use Rattle.refusal.specs.Verdict.{answer};
ghost use Rattle.text_pieces.specs.Written.{Written};
ghost use Rattle.text_pieces.specs.Wrote.{Wrote};
ghost use Rattle.plan.specs.declared.SlotDefinition.TheVariants.{Constant};
ghost use Rattle.plan.specs.Plan.{Counted};
ghost use Rattle.plan_text.specs.Text.{constant_line, constant_lines, scan_lines, selects_text, text_of};
ghost use Rattle.plan_text.specs.Answer.{formatted_of, text_after};

use plan::{Plan, Scan, Slot, SlotDefinition, SlotRecord};
use refusal::{Refusal, Rule, refuse};
use text_pieces::Pen;
use text_scan::SlotNames;

// Write the text of a plan to the front of a buffer. On a refusal the buffer stays as it is.
#[tactic(auto, unfolding(crate::specs::Answer::formatted_of, crate::specs::Answer::text_after))]
pub fn fmt(plan: Plan, names: &[u8], ends: &[usize], out: &mut [u8]) -> Result<usize, Refusal>
    ensures value { let said = formatted_of plan names.now ends.now (length out.old) in result ≡ answer said.verdict said.length }
    ensures out_after { out.new ≡ text_after plan names.now ends.now out.old }
{
    let length = measure(plan, names, ends, out)?;
    write_plan(plan, names, ends, out);
    Ok(length)
}

// What `fmt` answers for a buffer; nothing is written.
#[tactic(auto, unfolding(crate::specs::Answer::formatted_of, crate::specs::Answer::text_fault))]
pub fn measure(plan: Plan, names: &[u8], ends: &[usize], out: &[u8]) -> Result<usize, Refusal>
    ensures { let said = formatted_of plan names.now ends.now (length out.now) in result ≡ answer said.verdict said.length }
{
    text_names::check_names(plan, names, ends)?;
    // Written to no bytes, the text is only counted.
    let length = write_plan(plan, names, ends, &mut []);
    if out.len() < length {
        return refuse(Rule::TextTooShort, 0);
    }
    Ok(length)
}

// The whole text, from the buffer's front on.
fn write_plan(plan: Plan, names: &[u8], ends: &[usize], out: &mut [u8]) -> usize
    requires counted { Counted plan.scan_count plan.slot_count plan.select_count }
    requires ends_len { length ends.now ≡ plan.slot_count }
    ensures { Written (text_of plan names.now ends.now) 0 out.old result out.new }
{
    let mut pen = Pen { out, at: 0 };
    write_parts(&plan, names, ends, &mut pen);
    pen.at
}

// Its parts.
fn write_parts(plan: &Plan, names: &[u8], ends: &[usize], pen: &mut Pen)
    requires counted { Counted plan.now.scan_count plan.now.slot_count plan.now.select_count }
    requires ends_len { length ends.now ≡ plan.now.slot_count }
    ensures { Wrote (text_of plan.now names.now ends.now) pen.old pen.new }
{
    let slots = &plan.slots;
    let names = SlotNames { slots, names, ends };
    write_constants(&slots[..plan.slot_count], pen);
    write_scans(&plan.scans[..plan.scan_count], &names, pen);
    pen.write(b"yield ");
    write_selects(&plan.select[..plan.select_count], &names, pen);
}

// First all constants; a variable has no line.
fn write_constants(slots: &[SlotRecord], pen: &mut Pen)
    ensures { Wrote (constant_lines slots.now 0) pen.old pen.new }
{
    // Read here, so that the proof knows it as a number of 64 bits.
    let _stands = pen.at;
    for (i_slot, slot) in slots.iter().enumerate() {
        if let SlotDefinition::Constant(value) = slot.definition {
            write_constant(i_slot, value, pen);
        }
    }
}

// As `let :2 = 7`.
fn write_constant(i_slot: usize, value: u64, pen: &mut Pen)
    ensures { Wrote (constant_line i_slot (Constant value)) pen.old pen.new }
{
    pen.write(b"let :");
    pen.write_decimal(i_slot as u64);
    pen.write(b" = ");
    pen.write_decimal(value);
    pen.write(b"\n");
}

// After the constants the scans, in scan order.
fn write_scans(scans: &[Scan], names: &SlotNames, pen: &mut Pen)
    ensures { Wrote (scan_lines (take (length names.now.ends.now) names.now.slots.now) names.now.names.now names.now.ends.now scans.now) pen.old pen.new }
{
    // Read here, so that the proof knows it as a number of 64 bits.
    let _stands = pen.at;
    for scan in scans {
        names.write_scan(*scan, pen);
    }
}

// Finally the selections, joined.
fn write_selects(select: &[Slot], names: &SlotNames, pen: &mut Pen)
    ensures { Wrote (selects_text (take (length names.now.ends.now) names.now.slots.now) names.now.names.now names.now.ends.now select.now) pen.old pen.new }
{
    // Read here, so that the proof knows it as a number of 64 bits.
    let _stands = pen.at;
    for (i, slot) in select.iter().enumerate() {
        if i != 0 {
            pen.write(b", ");
        }
        names.write_slot(*slot, pen);
    }
}
