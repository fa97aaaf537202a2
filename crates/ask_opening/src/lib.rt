// What the program says of a question before any rows (docs/LAYOUT.md, "What it writes"): the plan text and the cost; or, with no rows
// after it, the first refusal or that the numbers are not a question. `open` finds the parts of the question, and the functions that it
// calls are given them.
#![tactic(auto)]

ghost use Rattle.std.specs.Prelude.{◌≡◌, true, Ok, Err, ◌++◌, ◌-◌, length};
ghost use Rattle.ask_lines.specs.Lines.{outside_line, refusal_text, cost_line};
ghost use Rattle.text_pieces.specs.Written.{Written};
ghost use Rattle.plan_text.specs.Text.{text_of};
ghost use Rattle.plan_text.specs.Answer.{text_fault};
ghost use Rattle.eval.specs.Evaluation.{evaluation_fault};
ghost use Rattle.ask_question.specs.Parts.{parts_of};
ghost use Rattle.ask_opening.specs.Question.{names_of, is_question, ends_of, tables_in};
ghost use Rattle.ask_opening.specs.Opening.{cost_bytes, outside, showing_fault, opened_with, opening_of, Line, Opens};
ghost use Rattle.ask_opening.specs.Opening.{refusal as Opening·refusal};

use ask_question::{MAX_ENDS, Parts};
use plan::Plan;
use refusal::{Refusal, Verdict};
use tables::Tables;
use text_pieces::Pen;

// The plan whose rows follow, if they do; and how many bytes are written before them.
#[derive(Clone, Copy)]
pub struct Opening {
    pub plan: Option<Plan>,
    pub length: usize,
}

// The bytes of names that there is room for.
const NAME_BYTES: usize = 4096;

// The longest cost line.
const COST_BYTES: usize = 27;

// Write what is said of the numbers of an input to the front of a buffer.
pub fn open(words: &[u64], out: &mut [u8]) -> Opening
    ensures { Opens (opening_of words.now (length out.old)) out.old result out.new }
{
    let parts = ask_question::find_parts(words);
    if !is_question(words, parts) {
        return say_outside(out);
    }
    let query = ask_question::read_query(words, parts);
    let planned = ask_plan::plan_asked(
        ask_question::word_at(words, ask_question::TASK),
        query,
        ask_question::items(words, parts.types),
    );
    match planned {
        Ok(chosen) => open_planned(words, parts, chosen.plan, chosen.cost, out),
        Err(refusal) => say_refusal(refusal, out),
    }
}

// Whether the numbers are in the layout, and there is room for the bytes of names.
#[tactic(auto, unfolding(crate::specs::Question::is_question))]
fn is_question(words: &[u64], parts: Parts) -> bool
    requires { parts ≡ parts_of words.now }
    ensures { result ≡ is_question words.now }
{
    ask_question::is_inside(words, parts)
        && ask_question::items(words, parts.names).len() <= NAME_BYTES
}

// One line, and no rows.
fn say_outside(out: &mut [u8]) -> Opening
    ensures { Opens outside out.old result out.new }
{
    let length = write_outside(out);
    Opening { plan: None, length }
}

fn say_refusal(refusal: Refusal, out: &mut [u8]) -> Opening
    ensures { Opens (Opening·refusal (Err refusal)) out.old result out.new }
{
    let length = write_refusal(refusal, out);
    Opening { plan: None, length }
}

// What is said of a question that was planned. First its names are read.
fn open_planned(words: &[u64], parts: Parts, plan: Plan, cost: u64, out: &mut [u8]) -> Opening
    requires parts_value { parts ≡ parts_of words.now }
    requires words_value { is_question words.now ≡ true }
    ensures { Opens (opened_with words.now plan cost (names_of words.now) (ends_of words.now plan.slot_count) (length out.old)) out.old result out.new }
{
    let mut names = [0u8; NAME_BYTES];
    let given = ask_question::items(words, parts.names);
    let count = given.len();
    ask_question::read_bytes(given, &mut names);
    open_named(words, parts, plan, cost, &names[..count], out)
}

// Then the ends of the names. The buffer has room for one end more than a plan can have slots: where it is full, there are too many, and
// the names are refused.
fn open_named(
    words: &[u64],
    parts: Parts,
    plan: Plan,
    cost: u64,
    names: &[u8],
    out: &mut [u8],
) -> Opening
    requires { parts ≡ parts_of words.now }
    ensures { Opens (opened_with words.now plan cost names.now (ends_of words.now plan.slot_count) (length out.old)) out.old result out.new }
{
    let mut ends = [0usize; MAX_ENDS];
    let given = ask_question::items(words, parts.ends);
    ask_question::read_ends(given, &mut ends);
    // the slots past the variables
    let variables = ask_question::word_at(words, ask_question::VARIABLES);
    let constants = (plan.slot_count as u64).saturating_sub(variables) as usize;
    let count = ask_question::count_ends(given.len(), constants, MAX_ENDS);
    open_with(words, parts, plan, cost, names, &ends[..count], out)
}

// Then a refusal is written, or the plan text and the cost.
fn open_with(
    words: &[u64],
    parts: Parts,
    plan: Plan,
    cost: u64,
    names: &[u8],
    ends: &[usize],
    out: &mut [u8],
) -> Opening
    requires { parts ≡ parts_of words.now }
    ensures { Opens (opened_with words.now plan cost names.now ends.now (length out.old)) out.old result out.new }
{
    match showing_fault(words, parts, plan, names, ends, out) {
        Ok(()) => {
            let length = write_opening(plan, cost, names, ends, out);
            Opening {
                plan: Some(plan),
                length,
            }
        }
        Err(refusal) => say_refusal(refusal, out),
    }
}

// The text's refusal comes before that of evaluation.
#[tactic(auto, unfolding(crate::specs::Opening::showing_fault))]
fn showing_fault(
    words: &[u64],
    parts: Parts,
    plan: Plan,
    names: &[u8],
    ends: &[usize],
    out: &[u8],
) -> Verdict
    requires { parts ≡ parts_of words.now }
    ensures { result ≡ showing_fault words.now plan names.now ends.now (length out.now) }
{
    text_fault(plan, names, ends, out)?;
    evaluation_fault(words, parts, plan)
}

// The refusal of the plan text. The text may take the whole buffer but for the longest cost line.
fn text_fault(plan: Plan, names: &[u8], ends: &[usize], out: &[u8]) -> Verdict
    ensures { result ≡ text_fault plan names.now ends.now (length out.now - cost_bytes) }
{
    let room = out.len().saturating_sub(COST_BYTES);
    plan_text::measure(plan, names, ends, &out[..room])?;
    Ok(())
}

fn evaluation_fault(words: &[u64], parts: Parts, plan: Plan) -> Verdict
    requires { parts ≡ parts_of words.now }
    ensures { result ≡ evaluation_fault plan (tables_in words.now) }
{
    let tables = Tables {
        aevt: ask_question::items(words, parts.aevt),
        avet: ask_question::items(words, parts.avet),
        eavt: ask_question::items(words, parts.eavt),
    };
    eval::check(plan, &tables)
}

// The text fits, as its check said.
fn write_opening(plan: Plan, cost: u64, names: &[u8], ends: &[usize], out: &mut [u8]) -> usize
    requires { text_fault plan names.now ends.now (length out.old - cost_bytes) ≡ Ok tt }
    ensures { Line (text_of plan names.now ends.now ++ cost_line cost) out.old result out.new }
{
    let length = plan_text::fmt(plan, names, ends, out).unwrap();
    write_cost(cost, length, out)
}

// One line, to the front of a buffer or behind the text. Each makes a pen of its own: of one that the caller lends, the caller's answer could not
// say what the buffer ends as.
fn write_outside(out: &mut [u8]) -> usize
    ensures { Written outside_line 0 out.old result out.new }
{
    let mut pen = Pen { out, at: 0 };
    ask_lines::write_outside(&mut pen);
    pen.at
}

fn write_refusal(refusal: Refusal, out: &mut [u8]) -> usize
    ensures { Written (refusal_text (Err refusal)) 0 out.old result out.new }
{
    let mut pen = Pen { out, at: 0 };
    ask_lines::write_refusal(refusal.rule.number(), refusal.place, &mut pen);
    pen.at
}

fn write_cost(cost: u64, at: usize, out: &mut [u8]) -> usize
    ensures { Written (cost_line cost) at out.old result out.new }
{
    let mut pen = Pen { out, at };
    ask_lines::write_cost(cost, &mut pen);
    pen.at
}
