// Evaluation, the search and the builder of tables, for the benchmarks (bench/run); the crate `bench_calls_c` has them as C functions. A plan or a query comes as decimal numbers (`replay_given`).
#![tactic(auto)]

use replay_given::numbers::Numbers;
use tables::Tables;

// Evaluate from row 0. Returns how many rows were written.
pub fn timed_rows<'a>(
    text: &[u8],
    aevt: &'a [u64],
    avet: &'a [u64],
    eavt: &'a [u64],
    rows: &mut [u64],
) -> usize {
    let plan = Numbers::new(text).plan();
    eval::evaluate(plan, &Tables { aevt, avet, eavt }, 0, rows).map_or(0, |shown| shown.count)
}

// The check alone, that evaluation begins with. Returns the refusal's number, or 0.
pub fn timed_check<'a>(text: &[u8], aevt: &'a [u64], avet: &'a [u64], eavt: &'a [u64]) -> u64 {
    let plan = Numbers::new(text).plan();
    match eval::check(plan, &Tables { aevt, avet, eavt }) {
        Ok(()) => 0,
        Err(r) => r.rule.number() as u64,
    }
}

// Search once. Returns the cost, or 0 where it is refused.
pub fn timed_search(text: &[u8]) -> u64 {
    search::search(Numbers::new(text).query()).map_or(0, |found| found.cost)
}

// Build three tables. Returns how many rows they have.
pub fn timed_build(heap: &[u64], aevt: &mut [u64], avet: &mut [u64], eavt: &mut [u64]) -> usize {
    tables_build::build(heap, aevt, avet, eavt).unwrap_or(0)
}
