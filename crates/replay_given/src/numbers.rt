// Decimal numbers in a text, for the cases of `replay` and for the benchmarks: what is no digit parts them.

// A text that is read number by number: what is left of it.
#[derive(Drop)]
pub struct Numbers<'a> {
    rest: &'a [u8],
}

impl<'a> Numbers<'a> {
    pub fn new(text: &'a [u8]) -> Numbers<'a> {
        Numbers { rest: text }
    }

    // The next number, if one is left: past what is no digit, its digits.
    pub fn next_number(&mut self) -> Option<u64> {
        let Some(start) = self.rest.iter().position(|b| b.is_ascii_digit()) else {
            // What is left has no number, and is not looked through again.
            self.rest = &[];
            return None;
        };
        let begun = &self.rest[start..];
        let length = begun
            .iter()
            .position(|b| !b.is_ascii_digit())
            .unwrap_or(begun.len());
        let (digits, rest) = begun.split_at(length);
        self.rest = rest;
        Some(
            digits
                .iter()
                .fold(0, |value, digit| with_digit(value, *digit)),
        )
    }

    // The next number; 0 where none is left.
    pub fn number(&mut self) -> u64 {
        self.next_number().unwrap_or(0)
    }

    // Bytes, and numbers of bytes, with their count before them: as many are read as there is room for.
    pub fn bytes<'b>(&mut self, room: &'b mut [u8]) -> &'b [u8] {
        self.list(room, |number| (number % 256) as u8)
    }

    pub fn ends<'b>(&mut self, room: &'b mut [usize]) -> &'b [usize] {
        self.list(room, |number| number as usize)
    }

    fn list<'b, T: Drop, F: Fn(u64) -> T>(&mut self, room: &'b mut [T], item: F) -> &'b [T]
        requires { F.IsAlwaysCallable item }
    {
        let count = self.number().min(room.len() as u64);
        let items = &mut room[..count as usize];
        for slot in items.iter_mut() {
            *slot = item(self.number());
        }
        items
    }
}

// The number with one more digit; one that would not fit stays as it is.
fn with_digit(value: u64, digit: u8) -> u64 {
    value
        .checked_mul(10)
        .and_then(|tens| tens.checked_add(digit.wrapping_sub(b'0') as u64))
        .unwrap_or(value)
}
