// Numbers in decimal: written from the end, and read loosely.
ghost use Rattle.std.specs.Prelude.{◌≡◌, ◌+◌, ◌≤◌, ◌<◌, length};
ghost use Rattle.primitives.specs.Place.{overwrite};
ghost use Rattle.receipt.specs.Decimal.{fixed, width, digits, read_limit, more, value_of};

// Writes the w last digits of n at a place.
pub(crate) fn put_fixed(out: &mut [u8], at: usize, w: usize, n: u64)
    requires { at + w ≤ length out.old }
    ensures { out.new ≡ overwrite out.old at (fixed w n) }
{
    let mut left = n;
    for i in (0..w).rev() {
        out[at + i] = b'0' + (left % 10) as u8;
        left /= 10;
    }
}

// The number of digits of a number.
fn width(n: u64) -> usize
    ensures { result ≡ width n }
{
    n.checked_ilog10().unwrap_or(0) as usize + 1
}

// Writes a number without leading zeros at a place; returns the place after it.
pub(crate) fn put_decimal(out: &mut [u8], at: usize, n: u64) -> usize
    requires { at + length (digits n) ≤ length out.old }
    ensures { (result ≡ at + length (digits n)) × (out.new ≡ overwrite out.old at (digits n)) }
{
    let w = width(n);
    put_fixed(out, at, w, n);
    at + w
}

// One byte more, read loosely: a byte below '0' is skipped, and the number stays below 10^12.
#[tactic(auto, unfolding(crate::specs::Decimal::more))]
fn more(v: u64, b: u8) -> u64
    requires { v < read_limit }
    ensures { result ≡ more v b }
{
    if b < b'0' {
        v
    } else {
        (v * 10 + u64::from(b % 16)) % 1_000_000_000_000
    }
}

// The number up to a '_' or the end.
pub(crate) fn value_of(text: &[u8]) -> u64
    ensures { (result ≡ value_of text.now) × (result < read_limit) }
{
    let mut v = 0;
    for b in text {
        if *b == b'_' {
            break;
        }
        v = more(v, *b);
    }
    v
}
