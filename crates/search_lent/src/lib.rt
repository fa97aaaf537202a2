// The lent form of the search: the statements and selects are lent as slices, as they are to planning (crate `planner_lent`), and read into a
// query by value, which is what the crate `search` works on.
#![tactic(auto)]

ghost use Rattle.std.specs.Prelude.{◌≡◌};
ghost use Rattle.search.specs.Search.{search_of, said_found};
ghost use Rattle.search_lent.specs.Lent.{search_lent};

use capacity::{MAX_SELECTS, MAX_STATEMENTS};
use query::{Query, Statement, Var};
use refusal::Refusal;
use search::Cheapest;

// Find the cheapest plan of the query that is lent: how many variables it has, the statements that must
// hold, and the variables to yield.
pub fn search(
    variable_count: u64,
    where_statements: &[Statement],
    select: &[Var],
) -> Result<Cheapest, Refusal>
    ensures { result ≡ said_found (search_lent variable_count where_statements.now select.now) }
{
    search::search(Query {
        variable_count,
        where_statements: planner_lent::read_statements(where_statements),
        select: planner_lent::read_selects(select),
    })
}

// Search a query by value: its statements and selects are lent to `search`. More than the arrays hold cannot be lent, and that is refused.
// `planner_lent::plan_query` does the same for its call: with the call as a parameter neither would be shorter.
pub fn search_query(query: Query) -> Result<Cheapest, Refusal>
    ensures { result ≡ said_found (search_of query) }
{
    if MAX_STATEMENTS < query.where_statements.count || MAX_SELECTS < query.select.count {
        return search::search(query);
    }
    search(
        query.variable_count,
        &query.where_statements.items[..query.where_statements.count],
        &query.select.items[..query.select.count],
    )
}
