// Cases of `replay`: a heap of triples (`given`, as a table), and the lengths of three buffers. Written are the builder's answer and the buffers whole,
// so that words past the result are seen to stay. compare/builds.rs makes cases and answers.
use replay_given::given::TABLE_WORDS;
use replay_given::numbers::Numbers;
use replay_given::written::{Words, said};
use std::io;
use std::io::Stdout;

// What a buffer holds before.
const AS_IT_WAS: u64 = 77;

// A heap, and the lengths of the buffers.
pub(crate) fn put_case(to: Stdout, numbers: &mut Numbers) -> io::Result<()> {
    let mut room = [0; TABLE_WORDS];
    let heap = numbers.table(&mut room);
    let mut first = [AS_IT_WAS; TABLE_WORDS];
    let mut second = [AS_IT_WAS; TABLE_WORDS];
    let mut third = [AS_IT_WAS; TABLE_WORDS];
    let aevt = first.get_mut(..numbers.number() as usize);
    let avet = second.get_mut(..numbers.number() as usize);
    let eavt = third.get_mut(..numbers.number() as usize);
    if let (Some(aevt), Some(avet), Some(eavt)) = (aevt, avet, eavt) {
        put_built(to, heap, aevt, avet, eavt)?;
    }
    Ok(())
}

// The tables of a heap, built into these buffers.
fn put_built(
    to: Stdout,
    heap: &[u64],
    aevt: &mut [u64],
    avet: &mut [u64],
    eavt: &mut [u64],
) -> io::Result<()> {
    let built = tables_build::build(heap, aevt, avet, eavt);
    let rows = built.unwrap_or(0);
    print!(to; "built {}, rows {rows},", said(built.map(|_| ())))?;
    println!(to; "{},{},{}", Words(aevt), Words(avet), Words(eavt))
}
