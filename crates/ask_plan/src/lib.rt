// What the program plans for the question that is asked: in the given order or by the search, once its types are checked where it asks for
// that; and the plan's cost.
#![tactic(auto)]

ghost use Rattle.std.specs.Prelude.{◌≡◌};
ghost use Rattle.ask_plan.specs.Answer.{searches as Answer·searches, answer_with, said_answer};

use plan::Plan;
use query::Query;
use refusal::Refusal;

// A plan and its cost.
#[derive(Clone, Copy)]
pub struct Chosen {
    pub plan: Plan,
    pub cost: u64,
}

// The plan for a task and a query, in the given order or the cheapest, and its cost. Where the task has types checked, their refusal comes
// before anything is planned: a value compared with one of another type would give no rows, and no warning. Only then is the table of types,
// attribute and type in turn, looked at.
#[tactic(auto, unfolding(crate::specs::Answer::answer_with, crate::specs::Answer::types_asked, crate::specs::Answer::planned_with_cost, crate::specs::Answer::planned_for, crate::specs::Answer::costed_for))]
pub fn plan_asked(task: u64, query: Query, types: &[u64]) -> Result<Chosen, Refusal>
    ensures { result ≡ said_answer (answer_with task query types.now) }
{
    if ask_question::checks_types(task) {
        types::infer_types(query, types)?;
    }
    let plan = if searches(task) {
        search_lent::search_query(query)?.plan
    } else {
        planner_lent::plan_query(query)?
    };
    let cost = cost::cost(plan)?;
    Ok(Chosen { plan, cost })
}

// Whether a task searches.
#[tactic(auto, unfolding(crate::specs::Answer::searches))]
fn searches(task: u64) -> bool
    ensures { result ≡ Answer·searches task }
{
    task == ask_question::SEARCH || task == ask_question::TYPED_SEARCH
}
