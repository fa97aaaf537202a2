// Cases of `replay`: a query (`given`), searched. Written is the refusal, or that it was found, the order, the cost and the plan.
// compare/searches.rs makes cases and answers.
use capacity::MAX_SEARCHED;
use plan::Plan;
use replay_given::numbers::Numbers;
use replay_given::written::{Answer, Words, WrittenPlan};
use search::Cheapest;
use std::io;
use std::io::Stdout;

// A query.
pub fn put_case(to: Stdout, numbers: &mut Numbers) -> io::Result<()> {
    let found = search_lent::search_query(numbers.query());
    print!(to; "{}", Answer(found.map(|_| "found")))?;
    let Cheapest { order, plan, cost } = found.unwrap_or(Cheapest {
        order: [0; MAX_SEARCHED],
        plan: Plan::empty(),
        cost: 0,
    });
    println!(to;
        ", order{}, cost {cost}, {}",
        Words(&order),
        WrittenPlan(&plan)
    )
}
