// The five amounts of a receipt.
ghost use Rattle.std.specs.Prelude.{◌≡◌, ◌+◌, ◌≤◌, length};
ghost use Rattle.primitives.specs.Place.{overwrite};
ghost use Rattle.receipt.specs.Details.{amounts_good};
ghost use Rattle.receipt.specs.Amount.{amounts_text};
ghost use Rattle.receipt.specs.Separated.{read_amounts};

use super::amount::{put_amount, read_amount, within_limit};
use super::bytes::put8;
use super::separators::after;

// Writes five amounts, each followed by a '_', at a place; returns the place after them.
pub(crate) fn put_amounts(out: &mut [u8], at: usize, a: [i64; 5]) -> usize
    requires { at + length (amounts_text a) ≤ length out.old }
    ensures { (result ≡ at + length (amounts_text a)) × (out.new ≡ overwrite out.old at (amounts_text a)) }
{
    let mut p = at;
    for z in a {
        let end = put_amount(out, p, z);
        put8(out, end, b'_');
        p = end + 1;
    }
    p
}

// Every amount is within the limit: question 9.
pub fn amounts_good(a: [i64; 5]) -> bool
    ensures { result ≡ amounts_good a }
{
    a.iter().all(|z| within_limit(*z))
}

// Five amounts, read loosely.
pub(crate) fn read_amounts(text: &[u8]) -> [i64; 5]
    ensures { result ≡ read_amounts 5 text.now }
{
    let mut amounts = [0; 5];
    let mut rest = text;
    for amount in &mut amounts {
        *amount = read_amount(rest);
        rest = after(rest);
    }
    amounts
}
