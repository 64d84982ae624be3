// Amounts in cents as euros, ',' and two digits.
ghost use Rattle.std.specs.Prelude.{◌≡◌, ◌+◌, ◌≤◌, length};
ghost use Rattle.primitives.specs.Place.{overwrite};
ghost use Rattle.receipt.specs.Amount.{cents, amount, within_limit, read_amount};

use super::bytes::put8;
use super::decimal::{put_decimal, put_fixed, value_of};

// The largest amount, in cents.
const AMOUNT_LIMIT: u64 = 99_999_999_999;

// Writes cents without a sign at a place; returns the place after them.
fn put_cents(out: &mut [u8], at: usize, m: u64) -> usize
    requires { at + length (cents m) ≤ length out.old }
    ensures { (result ≡ at + length (cents m)) × (out.new ≡ overwrite out.old at (cents m)) }
{
    let p = put_decimal(out, at, m / 100);
    put8(out, p, b',');
    put_fixed(out, p + 1, 2, m);
    p + 3
}

// Writes an amount at a place; returns the place after it.
pub(crate) fn put_amount(out: &mut [u8], at: usize, z: i64) -> usize
    requires { at + length (amount z) ≤ length out.old }
    ensures { (result ≡ at + length (amount z)) × (out.new ≡ overwrite out.old at (amount z)) }
{
    if z < 0 {
        put8(out, at, b'-');
        put_cents(out, at + 1, z.unsigned_abs())
    } else {
        put_cents(out, at, z.unsigned_abs())
    }
}

// The amount is at most the limit, above or below zero.
#[tactic(auto, unfolding(crate::specs::Amount::within))]
pub(crate) fn within_limit(z: i64) -> bool
    ensures { result ≡ within_limit z }
{
    z.unsigned_abs() <= AMOUNT_LIMIT
}

// The amount up to a '_' or the end, read loosely.
pub(crate) fn read_amount(text: &[u8]) -> i64
    ensures { result ≡ read_amount text.now }
{
    let cents = value_of(text) as i64;
    if text.starts_with(b"-") {
        -cents
    } else {
        cents
    }
}
