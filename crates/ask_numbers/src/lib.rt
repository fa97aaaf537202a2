// The numbers of the program's input: a text of decimal numbers becomes words (docs/LAYOUT.md, "Numbers").
#![tactic(auto)]

ghost use Rattle.std.specs.Prelude.{◌≡◌, false, true, ◌≤◌, ◌<◌, length, get_or, MatchOption};
ghost use Rattle.ask_numbers.specs.Words.{space, digit, digit_value, longer, goes_on, read_of, words_after};
ghost use Rattle.ask_numbers.specs.Steps.{Skipped, NumberFrom, DigitsFrom};

// A number that was read, and the place after it.
#[derive(Clone, Copy)]
struct Number {
    value: u64,
    next: usize,
}

// Read the numbers of a text into the front of a buffer, and say how many they are. Where the text is outside the layout, or has more
// numbers than the buffer has words, none are, and the buffer holds the numbers that were read before that place.
pub fn read_words(text: &[u8], words: &mut [u64]) -> Option<usize>
    ensures value { result ≡ read_of text.now (length words.old) }
    ensures words_after { words.new ≡ words_after text.now words.old }
{
    let mut count = 0;
    let mut at = skip(text, 0);
    // no iterator: a number says itself where the next may begin
    while at < text.len() {
        let number = number_at(text, at)?;
        if words.len() <= count {
            return None;
        }
        words[count] = number.value;
        count += 1;
        at = skip(text, number.next);
    }
    Some(count)
}

// The first place at or after `start` that is not a space, or the end.
fn skip(text: &[u8], start: usize) -> usize
    requires { start ≤ length text.now }
    ensures { Skipped text.now start result }
{
    for at in start..text.len() {
        if !is_space(text[at]) {
            return at;
        }
    }
    text.len()
}

// The number that begins at a place; none where the text is outside the layout from there on.
fn number_at(text: &[u8], start: usize) -> Option<Number>
    requires in_text { start < length text.now }
    requires no_space { space (get_or text.now start 0) ≡ false }
    ensures { NumberFrom text.now start result }
{
    let first = digit(text[start])?;
    digits_at(text, start + 1, first)
}

// The number whose digits before `start` read as `first`.
fn digits_at(text: &[u8], start: usize, first: u64) -> Option<Number>
    requires { start ≤ length text.now }
    ensures { DigitsFrom text.now start first result }
{
    let mut value = first;
    for at in start..text.len() {
        let b = text[at];
        if is_space(b) {
            return Some(Number { value, next: at });
        }
        value = longer(value, b)?;
    }
    Some(Number {
        value,
        next: text.len(),
    })
}

// Numbers are separated by tabs, line feeds, carriage returns and spaces.
#[tactic(auto, unfolding(crate::specs::Words::space))]
fn is_space(b: u8) -> bool
    ensures { result ≡ space b }
{
    matches!(b, b'\t' | b'\n' | b'\r' | b' ')
}

// What a digit counts.
#[tactic(auto, unfolding(crate::specs::Words::digit), using(std::proofs::lemmas::Bool::Decides::nat_tests))]
fn digit(b: u8) -> Option<u64>
    ensures { MatchOption result (digit b ≡ false) (λ d. (digit b ≡ true) × (d ≡ digit_value b)) }
{
    match b {
        b'0'..=b'9' => Some(u64::from(b - b'0')),
        _ => None,
    }
}

// A number with one more digit: none where the byte is not its next digit. No digit may follow a leading zero, and the number must stay
// below 2^64.
fn longer(value: u64, b: u8) -> Option<u64>
    ensures { MatchOption result (goes_on value b ≡ false) (λ n. (goes_on value b ≡ true) × (n ≡ longer value b)) }
{
    let digit = digit(b)?;
    if value == 0 {
        return None;
    }
    value.checked_mul(10)?.checked_add(digit)
}
