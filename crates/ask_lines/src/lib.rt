// What the program writes besides the plan text (docs/LAYOUT.md, "What it writes"), over a lent buffer by a pen.
#![tactic(auto)]

ghost use Rattle.std.specs.Prelude.{◌≡◌};
ghost use Rattle.text_pieces.specs.Wrote.{Wrote};
ghost use Rattle.ask_lines.specs.Lines.{outside_line, refusal_line, cost_line, word_text, left_after, row_lines};

use text_pieces::Pen;

// Input outside the layout.
pub fn write_outside(pen: &mut Pen)
    ensures { Wrote outside_line pen.old pen.new }
{
    pen.write(b"outside the layout\n");
}

// A refusal, alone.
pub fn write_refusal(number: u8, place: usize, pen: &mut Pen)
    ensures { Wrote (refusal_line number place) pen.old pen.new }
{
    pen.write(b"refused ");
    pen.write_decimal(u64::from(number));
    pen.write(b" at ");
    pen.write_decimal(place as u64);
    pen.write(b"\n");
}

// The end of the plan text's last line, and the cost.
pub fn write_cost(cost: u64, pen: &mut Pen)
    ensures { Wrote (cost_line cost) pen.old pen.new }
{
    pen.write(b"\ncost ");
    pen.write_decimal(cost);
    pen.write(b"\n");
}

// Rows of `width` words, a line for each.
pub fn write_rows(words: &[u64], width: usize, pen: &mut Pen)
    ensures { Wrote (row_lines width width words.now) pen.old pen.new }
{
    // Read here, so that the proof knows it as a number of 64 bits.
    let _stands = pen.at;
    let mut left = width;
    for word in words {
        write_word(*word, left, pen);
        left = left_after(left, width);
    }
}

// A word and a space; or, for the last word of a row, a line feed. `left` counts the words of the row from this one on.
fn write_word(word: u64, left: usize, pen: &mut Pen)
    ensures { Wrote (word_text word left) pen.old pen.new }
{
    pen.write_decimal(word);
    pen.write(if left <= 1 { b"\n" } else { b" " });
}

// How many words of a row are left after one.
#[tactic(auto, unfolding(crate::specs::Lines::left_after), using(std::proofs::lemmas::Bool::Decides::nat_tests))]
fn left_after(left: usize, width: usize) -> usize
    ensures { result ≡ left_after left width }
{
    if left <= 1 { width } else { left - 1 }
}
