// Ticket 5, the program's answer (docs/LAYOUT.md, "The tables of a heap"): a text of decimal numbers holds a heap of triples, and the three tables
// are written as the last parts of a question; or a refusal, or that the text is outside the layout.
#![tactic(auto)]

ghost use Rattle.std.specs.Prelude.{◌≡◌, false, true, ◌+◌, ◌*◌, ◌≤◌, length, Err, MatchOption};
ghost use Rattle.text_pieces.specs.Written.{Written};
ghost use Rattle.text_pieces.specs.Wrote.{Wrote};
ghost use Rattle.ask_lines.specs.Lines.{outside_line, refusal_text, word_bytes};
ghost use Rattle.tables_answer.specs.Capacity.{heap_words, answer_bytes};
ghost use Rattle.tables_answer.specs.Answer.{holds_heap, heap_in, table_part, table_parts, heap_answer_for, heap_answer_to};

use datom::WORDS;
use refusal::Refusal;
use text_pieces::Pen;

// A text is shorter than this, in bytes.
pub const TEXT_BYTES: usize = 1048576;

// The words of a heap that there is room for.
pub const HEAP_WORDS: usize = 33000;

// The most bytes that are written. With as many as a query takes they are fewer than `ask` reads.
pub const ANSWER_BYTES: usize = 2079063;

// Write the answer to a text to the front of a buffer, as far as that reaches, and say how many bytes it has.
pub fn answer(text: &[u8], out: &mut [u8]) -> usize
    ensures written { Written (heap_answer_to text.now) 0 out.old result out.new }
    ensures upper_bound { result ≤ answer_bytes }
{
    let mut words = [0u64; HEAP_WORDS + 1];
    match read_heap(text, &mut words) {
        Some(heap) => answer_heap(heap, out),
        None => write_outside(out),
    }
}

// Read a heap behind its count into a buffer: none where the text holds no heap. A text that fills its buffer may be longer than the
// buffer, and is not read.
fn read_heap<'a>(text: &[u8], words: &'a mut [u64]) -> Option<&'a [u64]>
    requires { length words.old ≡ 1 + heap_words }
    ensures { MatchOption result (holds_heap text.now ≡ false) (λ heap. (holds_heap text.now ≡ true) × (heap.now ≡ heap_in text.now)) }
{
    if TEXT_BYTES <= text.len() {
        return None;
    }
    let count = ask_numbers::read_words(text, words)?;
    let read = &words[..count];
    let (first, heap) = read.split_first()?;
    if *first != heap.len() as u64 {
        return None;
    }
    Some(heap)
}

// The answer for a heap.
fn answer_heap(heap: &[u64], out: &mut [u8]) -> usize
    ensures written { Written (heap_answer_for heap.now) 0 out.old result out.new }
    ensures upper_bound { result ≤ answer_bytes }
{
    let mut aevt = [0u64; HEAP_WORDS];
    let mut avet = [0u64; HEAP_WORDS];
    let mut eavt = [0u64; HEAP_WORDS];
    answer_in(heap, &mut aevt, &mut avet, &mut eavt, out)
}

// The answer for a heap, whose tables are built in three buffers.
fn answer_in(
    heap: &[u64],
    aevt: &mut [u64],
    avet: &mut [u64],
    eavt: &mut [u64],
    out: &mut [u8],
) -> usize
    requires aevt_len { length aevt.old ≡ heap_words }
    requires avet_len { length avet.old ≡ heap_words }
    requires eavt_len { length eavt.old ≡ heap_words }
    ensures written { Written (heap_answer_for heap.now) 0 out.old result out.new }
    ensures upper_bound { result ≤ answer_bytes }
{
    match tables_build::build(heap, aevt, avet, eavt) {
        Ok(count) => {
            let words = count * WORDS;
            write_tables(&aevt[..words], &avet[..words], &eavt[..words], out)
        }
        Err(refusal) => write_refusal(refusal, out),
    }
}

// Three tables one after the other.
fn write_tables(aevt: &[u64], avet: &[u64], eavt: &[u64], out: &mut [u8]) -> usize
    requires aevt_fits { length aevt.now ≤ heap_words }
    requires avet_fits { length avet.now ≤ heap_words }
    requires eavt_fits { length eavt.now ≤ heap_words }
    ensures written { Written (table_parts aevt.now avet.now eavt.now) 0 out.old result out.new }
    ensures upper_bound { result ≤ answer_bytes }
{
    let at = write_part(aevt, 0, out);
    let at = write_part(avet, at, out);
    write_part(eavt, at, out)
}

// A table as a part of a question: how many words it has, and its rows, a line each.
// It makes a pen of its own: of one that the caller lends, the caller's answer could not say what the buffer ends as.
fn write_part(table: &[u64], start: usize, out: &mut [u8]) -> usize
    ensures written { Written (table_part table.now) start out.old result out.new }
    ensures upper_bound { result ≤ start + word_bytes * (1 + length table.now) }
{
    let mut pen = Pen { out, at: start };
    write_lines(table, &mut pen);
    pen.at
}

fn write_lines(table: &[u64], pen: &mut Pen)
    ensures { Wrote (table_part table.now) pen.old pen.new }
{
    pen.write_decimal(table.len() as u64);
    pen.write(b"\n");
    ask_lines::write_rows(table, WORDS, pen);
}

// One line, for what is outside the layout or refused.
fn write_outside(out: &mut [u8]) -> usize
    ensures { Written outside_line 0 out.old result out.new }
{
    let mut pen = Pen { out, at: 0 };
    ask_lines::write_outside(&mut pen);
    pen.at
}

fn write_refusal(refusal: Refusal, out: &mut [u8]) -> usize
    ensures { Written (refusal_text (Err refusal)) 0 out.old result out.new }
{
    let mut pen = Pen { out, at: 0 };
    ask_lines::write_refusal(refusal.rule.number(), refusal.place, &mut pen);
    pen.at
}
