// Numbers as bits, most significant first, put over the bits of a lent buffer, byte by byte.
#![tactic(auto)]

ghost use Rattle.std.specs.Prelude.{◌≡◌, ◌++◌, ◌+◌, ◌*◌, ◌/◌, ◌%◌, ◌^◌, ◌<◌, length, take};
ghost use Rattle.std.proofs.lemmas.List.Edits.{sets};
ghost use Rattle.bits.specs.Bits.{bits, packed, bits_over};

// Put the last `width` bits of a number over a buffer's bits from bit `at` on, and zero bits to the next byte, as far as the buffer
// reaches. The bits in front stay, and the bytes behind; no bits change nothing.
pub fn write_bits(value: u64, width: usize, at: usize, out: &mut [u8])
    ensures { out.new ≡ bits_over out.old at (bits width value) }
{
    if width == 0 {
        return;
    }
    let i = at / 8;
    let count = at % 8;
    if i < out.len() {
        write_behind(front(out[i], count), count, value, width, i, out);
    }
}

// The same from byte `start` on, behind the bits that stand in front in that byte.
fn write_behind(
    first: u64,
    first_count: usize,
    value: u64,
    width: usize,
    start: usize,
    out: &mut [u8],
)
    requires { (first_count < 8) × (first < 2 ^ first_count) }
    ensures { out.new ≡ sets out.old start (packed (bits first_count first ++ bits width value)) }
{
    // The bits that do not make a byte yet.
    let mut held = first;
    let mut count = first_count;
    let mut left = width;
    for i in start..out.len() {
        let room = 8 - count;
        if left < room {
            write_last(held, count, value, left, i, out);
            return;
        }
        left -= room;
        out[i] = behind(held, above(value, left), room) as u8;
        held = 0;
        count = 0;
    }
}

// The last byte, which the bits do not fill: zero bits to the next byte. Where no bits are left, there is none.
fn write_last(held: u64, count: usize, value: u64, left: usize, i: usize, out: &mut [u8])
    requires { (count + left < 8) × (held < 2 ^ count) × (i < length out.old) }
    ensures { out.new ≡ sets out.old i (packed (bits count held ++ bits left value)) }
{
    let filled = count + left;
    if 0 < filled {
        out[i] = behind(behind(held, value, left), 0, 8 - filled) as u8;
    }
}

// The first bits of a byte.
fn front(byte: u8, count: usize) -> u64
    requires { count < 8 }
    ensures { (result < 2 ^ count) × (bits count result ≡ take count (bits 8 byte)) }
{
    u64::from(byte) >> (8 - count)
}

// The last `n` bits of a number, behind the bits of another.
fn behind(held: u64, value: u64, n: usize) -> u64
    requires { (held < 256) × (n < 9) }
    ensures { result ≡ held * 2 ^ n + value % 2 ^ n }
{
    let scale = 1u64 << n;
    held * scale + value % scale
}

// A number without its last `n` bits.
fn above(value: u64, n: usize) -> u64
    ensures { result ≡ value / 2 ^ n }
{
    if n < 64 { value >> n } else { 0 }
}
