// The cheapest plan of a query over every order of its statements (01, "Swaps and the search"). Added: the Rust plans in the given
// order.
#![tactic(auto)]

ghost use Rattle.std.specs.Prelude.{◌≡◌, ◌≤◌, map, take};
ghost use Rattle.refusal.specs.Verdict.{answer};
ghost use Rattle.capacity.specs.Capacity.{max_searched};
ghost use Rattle.query.specs.Query.{statements_of};
ghost use Rattle.lists.specs.Padded.{padded};
ghost use Rattle.orders.specs.Lists.{up_to, OrderOf};
ghost use Rattle.planner.specs.Planning.{plan_of};
ghost use Rattle.listing.specs.Listing.{combinations};
ghost use Rattle.search.specs.Search.{weighed, candidates_of, candidates, orders, search_of, said_found};
ghost use Rattle.search.specs.Best.{is_better, best_from, arranged_query, Searchable, Orders, Plans};

use capacity::{MAX_SCANS, MAX_SEARCHED, MAX_STATEMENTS};
use permutation::Permutations;
use plan::{Plan, Scan};
use query::{Query, Statements, ZERO_STATEMENT};
use refusal::{Refusal, Rule, refuse};

// The cheapest plan: the order as statement numbers, zeros past the last, the plan and its cost.
#[derive(Clone, Copy)]
pub struct Cheapest {
    pub order: [usize; MAX_SEARCHED],
    pub plan: Plan,
    pub cost: u64,
}

// The first plan of least cost among those weighed so far: its order, its scans and its cost. Of each array as many count as the query has
// statements: fixed memory, no heap.
#[derive(Clone, Copy)]
struct Best {
    order: [usize; MAX_SEARCHED],
    scans: [Scan; MAX_SCANS],
    cost: u64,
}

// Find the cheapest plan of the query: of every plan of every sound order of its statements, the first of least cost.
pub fn search(query: Query) -> Result<Cheapest, Refusal>
    ensures { result ≡ said_found (search_of query) }
{
    query_check::check_query(query)?;
    if MAX_SEARCHED < query.where_statements.count {
        return refuse(Rule::TooManyToSearch, 0);
    }
    let Some(best) = weigh_orders(&query) else {
        return refuse(Rule::NoSoundOrder, 0);
    };
    // The plan of the best's order, with its scans. It was planned before, so it is not refused.
    let plan = plan_in(&query, &best.order[..query.where_statements.count]).unwrap();
    Ok(Cheapest {
        order: best.order,
        plan: Plan {
            scans: best.scans,
            ..plan
        },
        cost: best.cost,
    })
}

// The best of the plans of every order, as the swaps give the orders, if there is one.
fn weigh_orders(query: &Query) -> Option<Best>
    requires { Searchable query.now }
    ensures { result ≡ best_from None (candidates query.now.variable_count (statements_of query.now) (orders query.now.where_statements.count)) }
{
    let mut order = first_order(query.where_statements.count);
    let mut best = None;
    let mut swaps = Permutations::new(query.where_statements.count).unwrap();
    loop {
        weigh_order(&mut best, &order, query);
        let Some(swap) = swaps.next().unwrap() else {
            return best;
        };
        order.swap(swap.0, swap.1);
    }
}

// The order in which the statements were given.
fn first_order(count: usize) -> [usize; MAX_SEARCHED]
    requires { count ≤ max_searched }
    ensures { result ≡ padded 0 max_searched (up_to count) }
{
    let mut order = [0; MAX_SEARCHED];
    for i in 0..count {
        order[i] = i;
    }
    order
}

// The best of the plans of this order, and of what was there: an order that is not sound has none.
fn weigh_order(best: &mut Option<Best>, order: &[usize; MAX_SEARCHED], query: &Query)
    requires searchable { Searchable query.now }
    requires orders { Orders query.now.where_statements.count order.now }
    ensures { best.new ≡ best_from best.old (candidates_of query.now.variable_count (statements_of query.now) (take query.now.where_statements.count order.now)) }
{
    if let Ok(plan) = plan_in(query, &order[..query.where_statements.count]) {
        weigh_plans(best, order, plan.scans, plan.scan_count);
    }
}

// The query planned afresh in this order.
fn plan_in(query: &Query, order: &[usize]) -> Result<Plan, Refusal>
    requires few { query.now.where_statements.count ≤ max_searched }
    requires order { OrderOf (up_to query.now.where_statements.count) order.now }
    ensures { let said = plan_of (arranged_query query.now order.now) in result ≡ answer said.verdict said.plan }
{
    planner::plan(arrange(query, order))
}

// The query with its statements in this order.
fn arrange(query: &Query, order: &[usize]) -> Query
    requires few { query.now.where_statements.count ≤ max_searched }
    requires order { OrderOf (up_to query.now.where_statements.count) order.now }
    ensures { result ≡ arranged_query query.now order.now }
{
    let mut items = [ZERO_STATEMENT; MAX_STATEMENTS];
    for (i, number) in order.iter().enumerate() {
        items[i] = query.where_statements.items[*number];
    }
    Query {
        where_statements: Statements {
            items,
            count: query.where_statements.count,
        },
        ..*query
    }
}

// The best of the plans listed from these scans on, and of what was there. They are plans, so none of them is refused. The scans are an
// array with a count, as `cost_of_scans` and `next_scans` take them.
fn weigh_plans(
    best: &mut Option<Best>,
    order: &[usize; MAX_SEARCHED],
    mut scans: [Scan; MAX_SCANS],
    count: usize,
)
    requires orders { Orders count order.now }
    requires plans { Plans count scans }
    ensures { best.new ≡ best_from best.old (map (weighed (take count order.now)) (combinations (take count scans))) }
{
    // Not a `while`: the scans are weighed before their first step, and the step says whether there are more.
    loop {
        let cost = cost::cost_of_scans(scans, count).unwrap();
        if is_better(best, cost) {
            *best = Some(Best {
                order: *order,
                scans,
                cost,
            });
        }
        let is_new = listing::next_scans(&mut scans, count).unwrap();
        if !is_new {
            return;
        }
    }
}

// Whether a plan of this cost takes the place of the best so far, if there is one.
fn is_better(best: &Option<Best>, cost: u64) -> bool
    ensures { result ≡ is_better best.now cost }
{
    match best {
        Some(best) => cost < best.cost,
        None => true,
    }
}
