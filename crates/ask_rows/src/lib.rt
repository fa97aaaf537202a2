// The rows that the program shows, window by window (docs/LAYOUT.md, "What it writes").
#![tactic(auto)]

ghost use Rattle.std.specs.Prelude.{◌≡◌, ◌*◌, ◌/◌, ◌≤◌, min, length, take};
ghost use Rattle.text_pieces.specs.Written.{Written};
ghost use Rattle.text_pieces.specs.Wrote.{Wrote};
ghost use Rattle.ask_lines.specs.Lines.{row_lines};
ghost use Rattle.visits.specs.Visits.{lent};
ghost use Rattle.ask_lines.specs.Lines.{word_bytes};
ghost use Rattle.ask_rows.specs.Windows.{is_last, step_of, last_line, end_text, Fills, ShowsWindow, evaluated_of, said_window};

use eval::Shown;
use plan::Plan;
use refusal::Refusal;
use tables::Tables;
use text_pieces::Pen;

// How many bytes were written, whether this window is the last, and how the next one begins: the number of its first row, and how many are
// left to show. `last` says nothing of a value that is missing: the last window is written too.
#[derive(Clone, Copy)]
pub struct Window {
    pub length: usize,
    pub last: bool,
    pub from: u64,
    pub left: u64,
}

// Whether it is the last, and how the next begins; as in `Window`, no value is missing where it is.
#[derive(Clone, Copy)]
struct Step {
    last: bool,
    from: u64,
    left: u64,
}

// Write the lines of a plan's rows from number `from` on, as many as the buffer for rows has room for and at most `left`; after the
// last window the line that says whether more follow. On a refusal of evaluation both buffers stay as they are.
pub fn show(
    plan: Plan,
    tables: &Tables,
    from: u64,
    left: u64,
    rows: &mut [u64],
    out: &mut [u8],
) -> Result<Window, Refusal>
    ensures { ShowsWindow plan (lent tables.now) from left rows.old out.old (said_window result) rows.new out.new }
{
    let shown = fill(plan, tables, from, left, rows)?;
    let at = write_rows(rows, shown.count, plan.select_count, out);
    let step = advance(shown.more, shown.count as u64, from, left);
    let length = write_end(step.last, shown.more, at, out);
    Ok(Window {
        length,
        last: step.last,
        from: step.from,
        left: step.left,
    })
}

// Rows to the front of a buffer.
fn fill(
    plan: Plan,
    tables: &Tables,
    from: u64,
    left: u64,
    rows: &mut [u64],
) -> Result<Shown, Refusal>
    ensures { Fills plan (lent tables.now) from left rows.old (evaluated_of result) rows.new }
{
    let room = room_for(left, plan.select_count, rows.len());
    eval::evaluate(plan, tables, from, &mut rows[..room])
}

// How many words the rows of a window take: as many whole rows as fit in `size` words, and at most `left`.
fn room_for(left: u64, width: usize, size: usize) -> usize
    ensures { result ≡ min left (size / width) * width }
{
    if width == 0 {
        return 0;
    }
    (size / width).min(left as usize) * width
}

// The lines of the rows in front of a buffer.
// It makes a pen of its own: of one that the caller lends, the caller's answer could not say what the buffer ends as.
fn write_rows(rows: &[u64], count: usize, width: usize, out: &mut [u8]) -> usize
    requires { count * width ≤ length rows.now }
    ensures written { Written (row_lines width width (take (count * width) rows.now)) 0 out.old result out.new }
    ensures upper_bound { result ≤ word_bytes * length rows.now }
{
    let mut pen = Pen { out, at: 0 };
    ask_lines::write_rows(&rows[..count * width], width, &mut pen);
    pen.at
}

// How the next window begins.
#[tactic(auto, unfolding(crate::specs::Windows::is_last, crate::specs::Windows::step_of))]
fn advance(more: bool, count: u64, from: u64, left: u64) -> Step
    ensures { result ≡ step_of more count from left }
{
    if is_last(more, count, from, left) {
        Step {
            last: true,
            from,
            left,
        }
    } else {
        Step {
            last: false,
            from: from + count,
            left: left - count,
        }
    }
}

#[tactic(auto, unfolding(crate::specs::Windows::is_last))]
fn is_last(more: bool, count: u64, from: u64, left: u64) -> bool
    ensures { result ≡ is_last more count from left }
{
    !more || left <= count || count == 0 || u64::MAX - from < count
}

// After the last window, whether more follow.
// It makes a pen of its own: of one that the caller lends, the caller's answer could not say what the buffer ends as.
fn write_end(last: bool, more: bool, at: usize, out: &mut [u8]) -> usize
    ensures { Written (end_text last more) at out.old result out.new }
{
    let mut pen = Pen { out, at };
    if last {
        write_last(more, &mut pen);
    }
    pen.at
}

#[tactic(auto, unfolding(crate::specs::Windows::last_line))]
fn write_last(more: bool, pen: &mut Pen)
    ensures { Wrote (last_line more) pen.old pen.new }
{
    if more {
        pen.write(b"more follow\n");
    } else {
        pen.write(b"none follows\n");
    }
}
