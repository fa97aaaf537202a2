// The public calls over words, for the bootloader; the crate `loader_c` has them as C functions, and loader/loader.h is their header. Plans
// and queries are words (crates `loader_words` and `loader_plan_words`), and so are swap states (crate `loader_swap_words`).
//
// Each call answers the refusal's number, 0 where there is none, and writes the whole answer into the four words that are lent for it:
// the number, the place, and two more that each call names (0 where it has none, or where it is refused). A refused call writes
// nothing else.
#![tactic(auto)]

ghost use Rattle.std.specs.Prelude.{◌≡◌, [], ◌∷◌, length};
ghost use Rattle.visits.specs.Visits.{tables_of};
ghost use Rattle.cost.specs.Cost.{cost_of};
ghost use Rattle.plan_check.specs.Check.{check_of};
ghost use Rattle.tables.specs.Check.{tables_fault};
ghost use Rattle.datom.specs.Fact.{aevt_row, avet_row, eavt_row};
ghost use Rattle.tables_build.specs.Build.{built_rows, build_of, built_over};
ghost use Rattle.eval.specs.Evaluation.{evaluate_of, buffer_after};
ghost use Rattle.refusal.specs.Verdict.{number_of, place_of};
ghost use Rattle.text_names.specs.Names.{select_name_fault};
ghost use Rattle.plan_text.specs.Answer.{formatted_of, text_after};
ghost use Rattle.image.specs.Image.{stored_of, image_after};
ghost use Rattle.image.specs.Read.{plan_read_of};
ghost use Rattle.permutation.specs.Swaps.{fresh_of};
ghost use Rattle.loader_words.specs.Words.{plan_of_words};
ghost use Rattle.loader.specs.Answers.{answer_of, bit, plan_after, stepped_after, order_after, types_after, state_after, swap_after, planned_of, found_of, typed_of, stepped_of, swapped_of, built_words, evaluated_words, formatted_words, name_words, stored_words};

use capacity::{MAX_SEARCHED, MAX_SLOTS};
use loader_swap_words::STATE_WORDS;
use loader_words::{PLAN_WORDS, QUERY_WORDS};
use permutation::{Permutations, Swap};
use refusal::Refusal;
use tables::Tables;

// Where each part of an answer stands, and how many words it has.
const ANSWER_NUMBER: usize = 0;

const ANSWER_PLACE: usize = 1;

const ANSWER_FIRST: usize = 2;

const ANSWER_SECOND: usize = 3;

pub const ANSWER_WORDS: usize = 4;

// A swap's two positions.
pub const SWAP_WORDS: usize = 2;

// Plan a query, its statements in the given order. Refusals 10 to 16.
pub fn loader_plan(
    query: &[u64; QUERY_WORDS],
    plan: &mut [u64; PLAN_WORDS],
    answer: &mut [u64; ANSWER_WORDS],
) -> u64
    ensures value { result ≡ number_of (planned_of query.now).verdict }
    ensures answer_after { answer.new ≡ answer_of (planned_of query.now).verdict 0 0 }
    ensures plan_after { plan.new ≡ plan_after (planned_of query.now).verdict (planned_of query.now).plan plan.old }
{
    match planner_lent::plan_query(loader_words::read_query(query)) {
        Ok(found) => {
            *plan = loader_plan_words::words_of_plan(found);
            accept(0, 0, answer)
        }
        Err(refusal) => refuse(refusal, answer),
    }
}

// The cheapest plan of a query, and the order of its statements. Answers the cost. Refusals 10 to 15, 17, 18.
#[tactic(auto, using(crate::proofs::Refused::search_refused))]
pub fn loader_search(
    query: &[u64; QUERY_WORDS],
    order: &mut [usize; MAX_SEARCHED],
    plan: &mut [u64; PLAN_WORDS],
    answer: &mut [u64; ANSWER_WORDS],
) -> u64
    ensures value { result ≡ number_of (found_of query.now).verdict }
    ensures answer_after { answer.new ≡ answer_of (found_of query.now).verdict (found_of query.now).cost 0 }
    ensures order_after { order.new ≡ order_after (found_of query.now).verdict (found_of query.now).order order.old }
    ensures plan_after { plan.new ≡ plan_after (found_of query.now).verdict (found_of query.now).plan plan.old }
{
    match search_lent::search_query(loader_words::read_query(query)) {
        Ok(found) => {
            // not `*order = found.order`: the borrow checker does not cover a field that is an array, stored straight
            order.copy_from_slice(&found.order);
            *plan = loader_plan_words::words_of_plan(found.plan);
            accept(found.cost, 0, answer)
        }
        Err(refusal) => refuse(refusal, answer),
    }
}

// The type of every variable of a query, by a table of (attribute, type). Refusals 10 to 16, 50 to 52.
pub fn loader_types(
    query: &[u64; QUERY_WORDS],
    table: &[u64],
    types: &mut [u64; MAX_SLOTS],
    answer: &mut [u64; ANSWER_WORDS],
) -> u64
    ensures value { result ≡ number_of (typed_of query.now table.now).verdict }
    ensures answer_after { answer.new ≡ answer_of (typed_of query.now table.now).verdict 0 0 }
    ensures types_after { types.new ≡ types_after (typed_of query.now table.now) types.old }
{
    match types::infer_types(loader_words::read_query(query), table) {
        Ok(found) => {
            *types = found;
            accept(0, 0, answer)
        }
        Err(refusal) => refuse(refusal, answer),
    }
}

// Step a plan to the next one. Answers 1 where it is new, and 0 where the initial plan stands again. Only the indexes of the scans that
// count are written. Refusals 20, 21.
#[tactic(auto, using(crate::proofs::Refused::next_refused))]
pub fn loader_next(plan: &mut [u64; PLAN_WORDS], answer: &mut [u64; ANSWER_WORDS]) -> u64
    ensures value { result ≡ number_of (stepped_of plan.old).verdict }
    ensures answer_after { answer.new ≡ answer_of (stepped_of plan.old).verdict (bit (stepped_of plan.old).is_new) 0 }
    ensures plan_after { plan.new ≡ stepped_after (stepped_of plan.old) plan.old }
{
    let mut next = loader_words::read_plan(plan);
    match listing::next(&mut next) {
        Ok(is_new) => {
            loader_plan_words::write_indexes(next.scans, next.scan_count, plan);
            accept(u64::from(is_new), 0, answer)
        }
        Err(refusal) => refuse(refusal, answer),
    }
}

// The plan check. Refusals 20, 13, 21 to 26, 29.
pub fn loader_check(plan: &[u64; PLAN_WORDS], answer: &mut [u64; ANSWER_WORDS]) -> u64
    ensures value { result ≡ number_of (check_of (plan_of_words plan.now)) }
    ensures answer_after { answer.new ≡ answer_of (check_of (plan_of_words plan.now)) 0 0 }
{
    match plan_check::check_invariants(loader_words::read_plan(plan)) {
        Ok(()) => accept(0, 0, answer),
        Err(refusal) => refuse(refusal, answer),
    }
}

// The cost of a plan. Answers it. Refusals 20, 21, 27.
#[tactic(auto, using(crate::proofs::Refused::cost_refused))]
pub fn loader_cost(plan: &[u64; PLAN_WORDS], answer: &mut [u64; ANSWER_WORDS]) -> u64
    ensures value { result ≡ number_of (cost_of (plan_of_words plan.now)).verdict }
    ensures answer_after { answer.new ≡ answer_of (cost_of (plan_of_words plan.now)).verdict (cost_of (plan_of_words plan.now)).cost 0 }
{
    match cost::cost(loader_words::read_plan(plan)) {
        Ok(cost) => accept(cost, 0, answer),
        Err(refusal) => refuse(refusal, answer),
    }
}

// The check of three tables. Refusals 1 to 3.
pub fn loader_tables(
    aevt: &[u64],
    avet: &[u64],
    eavt: &[u64],
    answer: &mut [u64; ANSWER_WORDS],
) -> u64
    ensures value { result ≡ number_of (tables_fault aevt.now avet.now eavt.now) }
    ensures answer_after { answer.new ≡ answer_of (tables_fault aevt.now avet.now eavt.now) 0 0 }
{
    let tables = Tables { aevt, avet, eavt };
    match tables.check() {
        Ok(()) => accept(0, 0, answer),
        Err(refusal) => refuse(refusal, answer),
    }
}

// The three tables of a heap of triples: sorted, repeats dropped. Answers how many rows they have. Refusals 70, 71.
pub fn loader_build(
    heap: &[u64],
    aevt: &mut [u64],
    avet: &mut [u64],
    eavt: &mut [u64],
    answer: &mut [u64; ANSWER_WORDS],
) -> u64
    ensures value { result ≡ number_of (build_of heap.now (length aevt.old) (length avet.old) (length eavt.old)).verdict }
    ensures answer_after { answer.new ≡ built_words (build_of heap.now (length aevt.old) (length avet.old) (length eavt.old)) }
    ensures aevt_after { aevt.new ≡ built_over (build_of heap.now (length aevt.old) (length avet.old) (length eavt.old)).verdict (built_rows aevt_row heap.now) aevt.old }
    ensures avet_after { avet.new ≡ built_over (build_of heap.now (length aevt.old) (length avet.old) (length eavt.old)).verdict (built_rows avet_row heap.now) avet.old }
    ensures eavt_after { eavt.new ≡ built_over (build_of heap.now (length aevt.old) (length avet.old) (length eavt.old)).verdict (built_rows eavt_row heap.now) eavt.old }
{
    match tables_build::build(heap, aevt, avet, eavt) {
        Ok(count) => accept(count as u64, 0, answer),
        Err(refusal) => refuse(refusal, answer),
    }
}

// Evaluate a plan over three tables: its rows from number `from` on, as many whole ones as fit. Answers how many, and 1 where
// another follows. Refusals: the plan check's, 1 to 3.
#[tactic(auto, using(crate::proofs::Refused::rows_refused, crate::proofs::Refused::more_refused))]
pub fn loader_evaluate<'a>(
    plan: &[u64; PLAN_WORDS],
    aevt: &'a [u64],
    avet: &'a [u64],
    eavt: &'a [u64],
    from: u64,
    rows: &mut [u64],
    answer: &mut [u64; ANSWER_WORDS],
) -> u64
    ensures value { result ≡ number_of (evaluate_of (plan_of_words plan.now) (tables_of aevt.now avet.now eavt.now) from (length rows.old)).verdict }
    ensures answer_after { answer.new ≡ evaluated_words (evaluate_of (plan_of_words plan.now) (tables_of aevt.now avet.now eavt.now) from (length rows.old)) }
    ensures rows_after { rows.new ≡ buffer_after (plan_of_words plan.now) (tables_of aevt.now avet.now eavt.now) from rows.old }
{
    let tables = Tables { aevt, avet, eavt };
    match eval::evaluate(loader_words::read_plan(plan), &tables, from, rows) {
        Ok(shown) => accept(shown.count as u64, u64::from(shown.more), answer),
        Err(refusal) => refuse(refusal, answer),
    }
}

// The text of a plan, with a name for each slot. Answers its length. Refusals: the plan check's, 30, 31.
#[tactic(auto, using(crate::proofs::Refused::text_refused))]
pub fn loader_text(
    plan: &[u64; PLAN_WORDS],
    names: &[u8],
    ends: &[usize],
    out: &mut [u8],
    answer: &mut [u64; ANSWER_WORDS],
) -> u64
    ensures value { result ≡ number_of (formatted_of (plan_of_words plan.now) names.now ends.now (length out.old)).verdict }
    ensures answer_after { answer.new ≡ formatted_words (formatted_of (plan_of_words plan.now) names.now ends.now (length out.old)) }
    ensures out_after { out.new ≡ text_after (plan_of_words plan.now) names.now ends.now out.old }
{
    match plan_text::fmt(loader_words::read_plan(plan), names, ends, out) {
        Ok(length) => accept(length as u64, 0, answer),
        Err(refusal) => refuse(refusal, answer),
    }
}

// How long the name of a select is; it ends where that of the select's slot does. Refusals: the plan check's, 30, 26.
#[tactic(auto, using(crate::proofs::Refused::name_refused))]
pub fn loader_select_name<'a>(
    plan: &[u64; PLAN_WORDS],
    names: &'a [u8],
    ends: &[usize],
    index: usize,
    answer: &mut [u64; ANSWER_WORDS],
) -> u64
    ensures value { result ≡ number_of (select_name_fault (plan_of_words plan.now) names.now ends.now index) }
    ensures answer_after { answer.new ≡ name_words (plan_of_words plan.now) names.now ends.now index }
{
    let read = loader_words::read_plan(plan);
    match text_names::check_select_name(read, names, ends, index) {
        Ok(()) => {
            let name = text_names::get_select_name(read, names, ends, index);
            accept(name.len() as u64, 0, answer)
        }
        Err(refusal) => refuse(refusal, answer),
    }
}

// A plan's image, by which it is kept. Answers its length. Refusals: the plan check's, 64.
#[tactic(auto, using(crate::proofs::Refused::store_refused))]
pub fn loader_store(
    plan: &[u64; PLAN_WORDS],
    out: &mut [u8],
    answer: &mut [u64; ANSWER_WORDS],
) -> u64
    ensures value { result ≡ number_of (stored_of (plan_of_words plan.now) (length out.old)).verdict }
    ensures answer_after { answer.new ≡ stored_words (stored_of (plan_of_words plan.now) (length out.old)) }
    ensures out_after { out.new ≡ image_after (plan_of_words plan.now) out.old }
{
    match image_write::write_image(loader_words::read_plan(plan), out) {
        Ok(stored) => accept(stored as u64, 0, answer),
        Err(refusal) => refuse(refusal, answer),
    }
}

// The plan that an image says. Refusals 60 to 63, 20, and the plan check's.
pub fn loader_restore(
    image: &[u8],
    plan: &mut [u64; PLAN_WORDS],
    answer: &mut [u64; ANSWER_WORDS],
) -> u64
    ensures value { result ≡ number_of (plan_read_of image.now).verdict }
    ensures answer_after { answer.new ≡ answer_of (plan_read_of image.now).verdict 0 0 }
    ensures plan_after { plan.new ≡ plan_after (plan_read_of image.now).verdict (plan_read_of image.now).plan plan.old }
{
    match image_read::read_image(image) {
        Ok(found) => {
            *plan = loader_plan_words::words_of_plan(found);
            accept(0, 0, answer)
        }
        Err(refusal) => refuse(refusal, answer),
    }
}

// A swap state whose steps list every order of n elements. Refusal 40.
pub fn loader_permutations(
    n: usize,
    state: &mut [u64; STATE_WORDS],
    answer: &mut [u64; ANSWER_WORDS],
) -> u64
    ensures value { result ≡ number_of (fresh_of n).verdict }
    ensures answer_after { answer.new ≡ answer_of (fresh_of n).verdict 0 0 }
    ensures state_after { state.new ≡ state_after (fresh_of n).verdict (fresh_of n).state state.old }
{
    match Permutations::new(n) {
        Ok(fresh) => {
            *state = loader_swap_words::words_of_state(fresh);
            accept(0, 0, answer)
        }
        Err(refusal) => refuse(refusal, answer),
    }
}

// Step a swap state: the two positions to swap. Answers 1 where there is a swap, and 0 where none is left; the positions are then 0.
// Refusal 40.
#[tactic(auto, using(crate::proofs::Refused::swap_refused, crate::proofs::Refused::swap_said))]
pub fn loader_next_swap(
    state: &mut [u64; STATE_WORDS],
    swap: &mut [u64; SWAP_WORDS],
    answer: &mut [u64; ANSWER_WORDS],
) -> u64
    ensures value { result ≡ number_of (swapped_of state.old).next.verdict }
    ensures answer_after { answer.new ≡ answer_of (swapped_of state.old).next.verdict (bit (swapped_of state.old).next.is_some) 0 }
    ensures swap_after { swap.new ≡ swap_after (swapped_of state.old).next.verdict (swapped_of state.old).next.swap swap.old }
    ensures state_after { state.new ≡ state_after (swapped_of state.old).next.verdict (swapped_of state.old).state state.old }
{
    let stepped = loader_swap_words::read_state(state).next_value();
    match stepped.next {
        Ok(next) => {
            let Swap(first, second) = next.unwrap_or(Swap(0, 0));
            *swap = [first as u64, second as u64];
            *state = loader_swap_words::words_of_state(stepped.state);
            accept(u64::from(next.is_some()), 0, answer)
        }
        Err(refusal) => refuse(refusal, answer),
    }
}

// The answer of a call that is not refused: the two words that it names.
fn accept(first: u64, second: u64, answer: &mut [u64; ANSWER_WORDS]) -> u64
    ensures value { result ≡ 0 }
    ensures answer_after { answer.new ≡ answer_of (Ok tt) first second }
{
    write_answer(0, 0, first, second, answer);
    0
}

// The answer of a call that is refused: the number of the refusal, and its place.
fn refuse(refusal: Refusal, answer: &mut [u64; ANSWER_WORDS]) -> u64
    ensures value { result ≡ number_of (Err refusal) }
    ensures answer_after { answer.new ≡ answer_of (Err refusal) 0 0 }
{
    let number = u64::from(refusal.rule.number());
    write_answer(number, refusal.place as u64, 0, 0, answer);
    number
}

// The words of an answer.
fn write_answer(number: u64, place: u64, first: u64, second: u64, answer: &mut [u64; ANSWER_WORDS])
    ensures { answer.new ≡ number ∷ place ∷ first ∷ second ∷ [] }
{
    answer[ANSWER_NUMBER] = number;
    answer[ANSWER_PLACE] = place;
    answer[ANSWER_FIRST] = first;
    answer[ANSWER_SECOND] = second;
}
