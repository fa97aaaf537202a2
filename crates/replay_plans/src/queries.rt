// Cases of `replay`: a query (`given`). Written is the refusal, or the plan, the plans listed from it with their costs, and the
// indexes that stand again after the last. Or what the check of the query alone says. compare/queries.rs makes cases and answers.
use capacity::{MAX_SELECTS, MAX_STATEMENTS};
use plan::Plan;
use query::Query;
use refusal::Refusal;
use replay_given::numbers::Numbers;
use replay_given::written::{Answer, Indexes, WrittenPlan, counted, said};
use std::io;
use std::io::Stdout;

// How many plans are listed at the most, and up to how many scans the cost is asked.
const LISTED: usize = 500;

const WEIGHED: usize = 9;

const ONE_TOO_MANY: usize = MAX_STATEMENTS + 1;

// A query.
pub fn put_case(to: Stdout, numbers: &mut Numbers) -> io::Result<()> {
    match planned(numbers.query()) {
        Err(r) => print!(to; "{}", Answer::<u64>(Err(r)))?,
        Ok(plan) => {
            print!(to; "{}; plans", WrittenPlan(&plan))?;
            put_listing(to, plan)?;
        }
    }
    println!(to)
}

// A query, checked.
pub fn put_check(to: Stdout, numbers: &mut Numbers) -> io::Result<()> {
    println!(to; "query {}", said(query_check::check_query(numbers.query())))
}

// The plans listed from a plan on, and what stands again after the last.
fn put_listing(to: Stdout, start: Plan) -> io::Result<()> {
    let mut plan = start;
    for _ in 0..LISTED {
        put_listed(to, &plan)?;
        let is_new = advance(&mut plan);
        if !is_new {
            return print!(to; " again {}", Indexes(counted(&plan.scans, plan.scan_count)));
        }
    }
    print!(to; " ..")
}

// To the next plan: whether it is new. A plan that is refused stays.
pub fn advance(plan: &mut Plan) -> bool {
    listing::next(plan).unwrap_or(false)
}

fn put_listed(to: Stdout, plan: &Plan) -> io::Result<()> {
    print!(to; " {}", Indexes(counted(&plan.scans, plan.scan_count)))?;
    if plan.scan_count <= WEIGHED {
        print!(to; " {}", cost::cost(*plan).unwrap_or(0))
    } else {
        print!(to; " left out")
    }
}

// The plan. One statement more than fit in a query is lent too, whatever it is.
fn planned(query: Query) -> Result<Plan, Refusal> {
    let statements = query.where_statements;
    let select = query.select;
    if statements.count == ONE_TOO_MANY && select.count <= MAX_SELECTS {
        let all = [statements.items[0]; ONE_TOO_MANY];
        return planner_lent::plan(query.variable_count, &all, &select.items[..select.count]);
    }
    planner_lent::plan_query(query)
}
