// The calls of the crate `bench_calls` as C functions, for the benchmarks (bench/run). Each export calls the function of its own name there.
#![tactic(auto)]

// Evaluate from row 0. Returns how many rows were written.
#[unsafe(no_mangle)]
pub extern "C" fn timed_rows<'a>(
    text: &[u8],
    aevt: &'a [u64],
    avet: &'a [u64],
    eavt: &'a [u64],
    rows: &mut [u64],
) -> usize {
    bench_calls::timed_rows(text, aevt, avet, eavt, rows)
}

// The check alone, that evaluation begins with. Returns the refusal's number, or 0.
#[unsafe(no_mangle)]
pub extern "C" fn timed_check<'a>(
    text: &[u8],
    aevt: &'a [u64],
    avet: &'a [u64],
    eavt: &'a [u64],
) -> u64 {
    bench_calls::timed_check(text, aevt, avet, eavt)
}

// Search once. Returns the cost, or 0 where it is refused.
#[unsafe(no_mangle)]
pub extern "C" fn timed_search(text: &[u8]) -> u64 {
    bench_calls::timed_search(text)
}

// Build three tables. Returns how many rows they have.
#[unsafe(no_mangle)]
pub extern "C" fn timed_build(
    heap: &[u64],
    aevt: &mut [u64],
    avet: &mut [u64],
    eavt: &mut [u64],
) -> usize {
    bench_calls::timed_build(heap, aevt, avet, eavt)
}
