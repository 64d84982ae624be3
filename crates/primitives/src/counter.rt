// The counter: a signed number as bytes, exclusive or with a key stream, and a checked sum.
ghost use Rattle.std.specs.Prelude.{◌≡◌, ◌^◌, ◌<◌, ◌≤◌, true, length, unsigned_abs};
ghost use Rattle.std.specs.Int.Signed.{mag};
ghost use Rattle.primitives.specs.Counter.{width_good, half, counter_fits, of_twos, counter_bytes, counter_value, xor_first, checked_sum};

use crate::buffer::{number_at, put_number};

// The widths that a counter may have: 5 to 8 bytes.
#[tactic(auto, unfolding(crate::specs::Counter::width_good))]
pub fn width_good(n: usize) -> bool
    ensures { result ≡ width_good n }
{
    (5..=8).contains(&n)
}

// Maps both k and -(k + 1) to k. A number is in the range of n bytes exactly when this is below half of 256^n.
fn folded(z: i64) -> u64
    ensures { result ≡ mag z }
{
    if z < 0 { (!z) as u64 } else { z as u64 }
}

// The absolute value.
pub fn absolute(z: i64) -> u64
    ensures { result ≡ unsigned_abs z }
{
    z.unsigned_abs()
}

// Half of 256^n.
fn half_of(n: usize) -> u64
    requires { (0 < n) × (n ≤ 8) }
    ensures { result ≡ half n }
{
    1 << (8 * n - 1)
}

// n is a valid width, and the number is in the range of n bytes.
pub fn counter_fits(n: usize, z: i64) -> bool
    ensures { result ≡ counter_fits n z }
{
    width_good(n) && folded(z) < half_of(n)
}

// The n bytes of a number in big-endian two's complement, then zeros up to eight bytes.
// Eight zeros if the number does not fit n bytes, or if n is not a valid width (5 to 8); `counter_fits` tests both.
pub fn counter_bytes(n: usize, z: i64) -> [u8; 8]
    ensures { result ≡ counter_bytes n z }
{
    let mut b = [0; 8];
    if counter_fits(n, z) {
        put_number(&mut b, 0, n, z.cast_unsigned());
    }
    b
}

// The signed value of n bytes whose unsigned value is v.
fn signed(n: usize, v: u64) -> i64
    requires { (0 < n) × ((n ≤ 8) × (v < 256 ^ n)) }
    ensures { result ≡ of_twos n v }
{
    let h = half_of(n);
    if v < h {
        v as i64
    } else {
        !((h - 1 - (v - h)) as i64)
    }
}

// The signed value of the first n bytes; 0 if n is not a valid width. With a valid width, any n bytes give a number that fits.
pub fn counter_value(n: usize, b: [u8; 8]) -> i64
    ensures { result ≡ counter_value n b }
{
    match number_at(&b, 0, n) {
        Some(v) if width_good(n) => signed(n, v),
        _ => 0,
    }
}

// Combines the first n bytes with those of the key stream by exclusive or; the bytes after them stay as they are.
// n need not be a valid width: 0 combines no byte, and any n above 8 combines all eight.
// Eight zeros, which stand for a number that does not fit, give the first n bytes of the key stream itself.
pub fn xor_first(n: usize, b: [u8; 8], stream: [u8; 16]) -> [u8; 8]
    ensures { result ≡ xor_first n b stream }
{
    let mut r = b;
    for i in 0..n.min(8) {
        r[i] = b[i] ^ stream[i];
    }
    r
}

// The sum, if it is in the range of 64 bits.
pub fn checked_add(a: i64, b: i64) -> Option<i64>
    ensures { result ≡ checked_sum a b }
{
    a.checked_add(b)
}
