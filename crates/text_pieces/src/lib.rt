// Pieces of a text, written and counted by a pen: it stands at a position of a lent buffer, writes each piece from there on, as far as
// the buffer reaches, and stands behind the piece then. Written to a buffer of no bytes, a text is only counted. Positions stop at the
// largest number, which no buffer's length reaches, so that no sum wraps.
#![tactic(auto)]

ghost use Rattle.std.specs.Prelude.{◌≡◌, ◌<◌};
ghost use Rattle.text_pieces.specs.Decimal.{decimal};
ghost use Rattle.text_pieces.specs.Escaped.{is_plain, hex_digit, escaped_byte, escaped};
ghost use Rattle.text_pieces.specs.Written.{Written};
ghost use Rattle.text_pieces.specs.Wrote.{Wrote};

// A lent buffer, and the position where the next piece goes.
#[derive(Drop)]
pub struct Pen<'a> {
    pub out: &'a mut [u8],
    pub at: usize,
}

impl Pen<'_> {
    // Write a piece.
    pub fn write(&mut self, piece: &[u8])
        ensures { Wrote piece.now self.old self.new }
    {
        self.at = write(piece, self.at, self.out);
    }

    // Write a number in decimal.
    pub fn write_decimal(&mut self, number: u64)
        ensures { Wrote (decimal number) self.old self.new }
    {
        self.at = write_digits(number, self.at, self.out);
    }

    // Write a name: what is not plain in it is escaped.
    pub fn write_escaped(&mut self, name: &[u8])
        ensures { Wrote (escaped name.now) self.old self.new }
    {
        // Read here, so that the proof knows it as a number of 64 bits.
        let _stands = self.at;
        for byte in name {
            self.write_byte(*byte);
        }
    }

    // Write one byte of a name.
    fn write_byte(&mut self, byte: u8)
        ensures { Wrote (escaped_byte byte) self.old self.new }
    {
        if is_plain(byte) {
            self.write(&[byte]);
        } else {
            self.write(&[b'\\', hex_digit(byte / 16), hex_digit(byte % 16)]);
        }
    }
}

// A piece over a buffer from a position on. Returns the position behind it.
fn write(piece: &[u8], at: usize, out: &mut [u8]) -> usize
    ensures { Written piece.now at out.old result out.new }
{
    if at < out.len() {
        let count = piece.len().min(out.len() - at);
        out[at..at + count].copy_from_slice(&piece[..count]);
    }
    at.saturating_add(piece.len())
}

// A number's digits. It calls itself on the number's tens. Not by a pen: the position would be read and written anew for each digit.
fn write_digits(number: u64, at: usize, out: &mut [u8]) -> usize
    ensures { Written (decimal number) at out.old result out.new }
{
    if number < 10 {
        return write(&[b'0' + number as u8], at, out);
    }
    let tens = write_digits(number / 10, at, out);
    write(&[b'0' + (number % 10) as u8], tens, out)
}

// Whether a byte of a name is written as it is.
fn is_plain(byte: u8) -> bool
    ensures { result ≡ is_plain byte }
{
    matches!(byte, b'!'..=b'~') && !matches!(byte, b':' | b',' | b'(' | b')' | b'\\')
}

// The byte of a lowercase hex digit.
fn hex_digit(digit: u8) -> u8
    requires { digit < 16 }
    ensures { result ≡ hex_digit digit }
{
    if digit < 10 {
        b'0' + digit
    } else {
        b'a' - 10 + digit
    }
}
