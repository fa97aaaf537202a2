// Fields of an image: numbers of so many bits, most significant first, wherever in a byte they begin. They are read byte by byte.
ghost use Rattle.std.specs.Prelude.{◌≡◌, ◌+◌, ◌*◌, ◌/◌, ◌^◌, ◌≤◌, ◌<◌, length, take, drop, ltb};
ghost use Rattle.bits.specs.Bits.{number as Bits·number, unpacked};
ghost use Rattle.image_read.specs.Reads.{bit_of, bits_from, Within, Moved, BitsThere, ReadsField};

use refusal::{Refusal, Rule, refuse};

pub(crate) const BYTE_BITS: usize = 8;

// As many bits as stand in a few bytes whatever bit they begin at: half a word.
const HALF_BITS: usize = 32;

// Where a field begins: a byte, and which of its bits, counted from the most significant.
#[derive(Clone, Copy)]
pub(crate) struct Cursor {
    pub(crate) byte: usize,
    pub(crate) bit: usize,
}

// Read a field of so many bits: its number, and where the next field begins. 60: bits run out.
pub(crate) fn read_field(bytes: &[u8], at: Cursor, width: usize) -> Result<(u64, Cursor), Refusal>
    requires { Within bytes.now at × (width ≤ 64) }
    ensures { ReadsField width bytes.now at result }
{
    if runs_out(bytes.len(), at, width) {
        return refuse(Rule::BitsRunOut, at.byte);
    }
    Ok((bits_at(bytes, at, width), later(at, width)))
}

// Whether fewer bits are left than a field has. The bytes that it lies in are counted: eight times the length may be no u64.
fn runs_out(len: usize, at: Cursor, width: usize) -> bool
    requires { (at.bit < 8) × (bit_of at ≤ 8 * len) × (width ≤ 64) }
    ensures { result ≡ ltb (8 * len) (bit_of at + width) }
{
    len - at.byte < bytes_of(at.bit + width)
}

// How many bytes bits lie in that begin with a byte.
pub(crate) fn bytes_of(bits: usize) -> usize
    requires { bits < 128 }
    ensures { result ≡ (bits + 7) / 8 }
{
    bits.div_ceil(BYTE_BITS)
}

// So many bits further on.
fn later(at: Cursor, width: usize) -> Cursor
    requires { (at.bit < 8) × (at.byte < 2 ^ 63) × (width ≤ 64) }
    ensures { Moved at width result }
{
    let bit = at.bit + width;
    Cursor {
        byte: at.byte + bit / BYTE_BITS,
        bit: bit % BYTE_BITS,
    }
}

// The number of so many bits. More than half a word, and what stands beside them in their first and their last byte, may be no u64: these
// are read in two parts.
fn bits_at(bytes: &[u8], at: Cursor, width: usize) -> u64
    requires { BitsThere bytes.now at width × (width ≤ 64) }
    ensures { result ≡ Bits·number (take width (bits_from bytes.now at)) }
{
    if width <= HALF_BITS {
        return part_at(bytes, at, width);
    }
    let front = width - HALF_BITS;
    let high = part_at(bytes, at, front);
    let low = part_at(bytes, later(at, front), HALF_BITS);
    high * power(HALF_BITS) + low
}

// The number of at most half a word's bits: that of the bytes that they lie in, without what stands behind them and before them.
fn part_at(bytes: &[u8], at: Cursor, width: usize) -> u64
    requires { BitsThere bytes.now at width × (width ≤ 32) }
    ensures { result ≡ Bits·number (take width (bits_from bytes.now at)) }
{
    let past = at.bit + width;
    let count = bytes_of(past);
    let behind = BYTE_BITS * count - past;
    bytes_at(bytes, at.byte, count) / power(behind) % power(width)
}

// The number that so many bytes say, the first most significant.
fn bytes_at(bytes: &[u8], from: usize, count: usize) -> u64
    requires { (from + count ≤ length bytes.now) × (count ≤ 8) }
    ensures { result ≡ Bits·number (take (8 * count) (drop (8 * from) (unpacked bytes.now))) }
{
    let mut value = 0;
    for i in 0..count {
        value = value * 256 + u64::from(bytes[from + i]);
    }
    value
}

// Two to the n.
pub(crate) fn power(n: usize) -> u64
    requires { n < 64 }
    ensures { result ≡ 2 ^ n }
{
    1 << n
}
