// The program's answer, part by part (docs/LAYOUT.md): the numbers of a text; what is said of them; and then, window by window, the rows.
// The parts one after the other are the answer to the text.
#![tactic(auto)]

ghost use Rattle.std.specs.Prelude.{◌≡◌, ◌-◌, ◌^◌, min, length};
ghost use Rattle.ask_answer.specs.Parts.{Reads, Begins, GoesOn};

use plan::Plan;
use refusal::Refusal;
use tables::Tables;

// The rows that are still to be shown: the plan, the number of the next row, and how many are left.
#[derive(Clone, Copy)]
pub struct Following {
    pub plan: Plan,
    pub from: u64,
    pub left: u64,
}

// A part of the answer: how many bytes it has, and the rows that follow it, unless it is the last.
#[derive(Clone, Copy)]
pub struct Part {
    pub length: usize,
    pub following: Option<Following>,
}

// A text is shorter than this, in bytes.
pub const TEXT_BYTES: usize = 2097152;

// The numbers of a text that there is room for.
pub const WORDS: usize = 131072;

// The words of rows that are read at a time.
pub const WINDOW: usize = 65536;

// Read the numbers of a text into the front of a buffer, and answer how many they are: none where the text is outside the layout, or
// has too many. A text that fills its buffer may be longer than the buffer, and is not read.
#[tactic(auto, unfolding(crate::specs::Answer::is_read, crate::specs::Parts::numbers_in, crate::specs::Parts::words_read))]
pub fn read_question(text: &[u8], words: &mut [u64]) -> usize
    ensures { Reads text.now words.old result words.new }
{
    if TEXT_BYTES <= text.len() {
        return 0;
    }
    ask_numbers::read_words(text, words).unwrap_or(0)
}

// Write the first part, what is said of the numbers, to the front of a buffer.
pub fn begin(words: &[u64], out: &mut [u8]) -> Part
    ensures { Begins words.now out.old result out.new }
{
    let opening = ask_opening::open(words, out);
    let from = ask_question::word_at(words, ask_question::FROM);
    let most = ask_question::word_at(words, ask_question::MOST);
    match opening.plan {
        Some(plan) => Part {
            length: opening.length,
            following: Some(Following {
                plan,
                from,
                left: with_numbers(from, most),
            }),
        },
        None => Part {
            length: opening.length,
            following: None,
        },
    }
}

// How many rows to show: at most `most`, and no more than there are row numbers from `from` on.
fn with_numbers(from: u64, most: u64) -> u64
    ensures { result ≡ min most (2 ^ 64 - from) }
{
    if from == 0 {
        return most;
    }
    most.min(u64::MAX - from + 1)
}

// Write the part that follows another, the next window of rows, to the front of a buffer. On a refusal of evaluation both buffers stay as
// they are.
pub fn go_on(
    words: &[u64],
    following: Following,
    rows: &mut [u64],
    out: &mut [u8],
) -> Result<Part, Refusal>
    ensures { GoesOn words.now following rows.old out.old result rows.new out.new }
{
    let parts = ask_question::find_parts(words);
    let aevt = ask_question::items(words, parts.aevt);
    let avet = ask_question::items(words, parts.avet);
    let eavt = ask_question::items(words, parts.eavt);
    let plan = following.plan;
    let tables = Tables { aevt, avet, eavt };
    let window = ask_rows::show(plan, &tables, following.from, following.left, rows, out)?;
    if window.last {
        return Ok(Part {
            length: window.length,
            following: None,
        });
    }
    Ok(Part {
        length: window.length,
        following: Some(Following {
            plan,
            from: window.from,
            left: window.left,
        }),
    })
}
