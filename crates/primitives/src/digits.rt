// Numbers as digits that bytes spell; the highest digit comes first.
ghost use Rattle.std.specs.Prelude.{◌≡◌, ℕ, ◌+◌, ◌^◌, ◌<◌, ◌≤◌, map, length, slice_index, EachIndex};
ghost use Rattle.primitives.specs.Place.{overwrite};
ghost use Rattle.primitives.specs.Number.{digits_of, number_of};
ghost use Rattle.primitives.specs.BaseRule.{Base};
ghost use Rattle.std.proofs.Common.{refl, rules};
ghost use Rattle.primitives.specs.Digits.{bytes};

// Digits of five to eight bits, and the letters that spell them.
pub(crate) trait Digits {
    // The letters as a base of the rule: how many bits a letter has, and which digit it spells.
    ghost base: { Self → Base };

    ghost RADIX: { ℕ };

    ghost BITS: { ℕ };

    // How many digits there are.
    const RADIX: u64;

    // The bits of a digit.
    const BITS: usize;

    // The letter of a digit.
    fn letter(&self, d: u8) -> u8
        requires { d < RADIX }
        ensures { result ≡ (base self.now).letter d };

    // The digit of a letter; not below the radix if the byte is no letter.
    fn digit(&self, c: u8) -> u8
        ensures { result ≡ (base self.now).digit c };

    // A digit fits a byte, and so many digits are all that its bits can tell.
    ghost some: { 0 < RADIX };

    ghost small: { RADIX ≤ 256 };

    ghost radix: { (x : Self) → RADIX ≡ 2 ^ (base x).bits };

    ghost bits: { (x : Self) → BITS ≡ (base x).bits };

    ghost wide: { (x : Self) → 5 ≤ (base x).bits };
}

// Writes the letters of the n low digits of a number at a place.
pub(crate) fn put_digits<D: Digits>(digits: &D, out: &mut [u8], at: usize, n: usize, x: u64)
    requires { at + n ≤ length out.old }
    ensures { out.new ≡ overwrite out.old at (map (D.base digits.now).letter (digits_of D.RADIX n x)) }
{
    let mut v = x;
    for i in (0..n).rev() {
        out[at + i] = digits.letter((v % D::RADIX) as u8);
        v /= D::RADIX;
    }
}

// The number that at most eight letters spell.
pub(crate) fn number_of<D: Digits>(digits: &D, s: &[u8]) -> u64
    requires few { length s.now ≤ 8 }
    requires known { EachIndex s.now (λ i. (D.base digits.now).digit (slice_index s.now i) < D.RADIX) }
    ensures { result ≡ number_of D.RADIX (map (D.base digits.now).digit s.now) }
{
    let mut v = 0;
    for c in s {
        v = v * D::RADIX + u64::from(digits.digit(*c));
    }
    v
}

// Bytes are digits of eight bits, and spell themselves.
pub(crate) struct Bytes;

impl Digits for Bytes {
    ghost base = { λ x. bytes };

    ghost RADIX = { 256 };

    ghost BITS = { 8 };

    const RADIX: u64 = 256;

    const BITS: usize = 8;

    fn letter(&self, d: u8) -> u8 {
        d
    }

    fn digit(&self, c: u8) -> u8 {
        c
    }

    ghost some = { Prim.search rules };

    ghost small = { Prim.search rules };

    ghost radix = { λ x. refl };

    ghost bits = { λ x. refl };

    ghost wide = { λ x. Prim.search rules };
}
