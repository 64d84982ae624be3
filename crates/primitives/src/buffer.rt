// Bytes and numbers at a place in a buffer. Buffer and place are two arguments of every public writer, and so of the inner ones: with a value that held
// both, each contract would have to say besides that it is still the same buffer.
ghost use Rattle.std.specs.Prelude.{◌≡◌, ◌+◌, ◌≤◌, length, take, drop, nat_le};
ghost use Rattle.primitives.specs.Place.{overwrite, placed, place_after};
ghost use Rattle.primitives.specs.Bytes.{same};
ghost use Rattle.primitives.specs.Number.{bytes_of, number_at};

use crate::digits::{Bytes, number_of, put_digits};

// A buffer of this length has room for n bytes from a place on; computed without a sum, which could overflow.
pub fn has_room(len: usize, at: usize, n: usize) -> bool
    ensures { result ≡ nat_le (at + n) len }
{
    at <= len && n <= len - at
}

// Copies all of `s` to a place, or nothing if there is no room; returns the place after what was written.
#[tactic(auto, unfolding(crate::specs::Place::room, crate::specs::Place::placed, crate::specs::Place::place_after, crate::specs::Place::overwrite))]
pub fn put(out: &mut [u8], at: usize, s: &[u8]) -> usize
    ensures { (result ≡ place_after out.old at s.now) × (out.new ≡ placed out.old at s.now) }
{
    if !has_room(out.len(), at, s.len()) {
        return at;
    }
    // A loop: between two lent slices `copy_from_slice` becomes a call of memmove, and the library needs nothing from outside but memcpy and memset. (Into a
    // new array it becomes memcpy.)
    for (i, byte) in s.iter().enumerate() {
        out[at + i] = *byte;
    }
    at + s.len()
}

// Writes the n low bytes of a number at a place, the highest first.
#[tactic(auto, using(crate::proofs::Spelled::bytes_spelled))]
pub(crate) fn put_be(out: &mut [u8], at: usize, n: usize, x: u64)
    requires { at + n ≤ length out.old }
    ensures { out.new ≡ overwrite out.old at (bytes_of n x) }
{
    put_digits(&Bytes, out, at, n, x);
}

// The same, or nothing if there is no room; returns the place after what was written.
#[tactic(auto, using(crate::proofs::Numbers::length_bytes_of), unfolding(crate::specs::Place::room, crate::specs::Place::placed, crate::specs::Place::place_after))]
pub fn put_number(out: &mut [u8], at: usize, n: usize, x: u64) -> usize
    ensures { (result ≡ place_after out.old at (bytes_of n x)) × (out.new ≡ placed out.old at (bytes_of n x)) }
{
    if !has_room(out.len(), at, n) {
        return at;
    }
    put_be(out, at, n, x);
    at + n
}

// The number in the n bytes at a place, the highest first; none if n is above 8 or the slice ends before the last of them.
#[tactic(auto, using(crate::proofs::Spelled::value_spelled), unfolding(crate::specs::Number::number_at))]
pub fn number_at(s: &[u8], at: usize, n: usize) -> Option<u64>
    ensures { result ≡ number_at s.now at n }
{
    if n <= 8 && has_room(s.len(), at, n) {
        Some(number_of(&Bytes, &s[at..at + n]))
    } else {
        None
    }
}

// The same bytes, in the same order: a public name for `==`, which the crates above use.
#[tactic(auto, using(crate::proofs::ByteLists::pointwise_is))]
pub fn same(a: &[u8], b: &[u8]) -> bool
    ensures { result ≡ same a.now b.now }
{
    a == b
}
