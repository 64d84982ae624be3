// The details of a receipt for C: from thirteen numbers, and as 72 bytes.
ghost use Rattle.std.specs.Prelude.{◌≡◌, [], ◌∷◌, ◌≤◌, length};
ghost use Rattle.primitives.specs.Place.{overwrite};
ghost use Rattle.device.specs.Details.{no_details, details_with, of_kind, date_of, details_of, kind_number, numbers_bytes, amounts_bytes, details_bytes, number_in, amount_in, details_in};

use super::layout::{counter_at, word_at};
use receipt::{DateTime, Details, Kind};

// The details of a receipt are 72 bytes long.
pub(crate) const DETAILS: usize = 72;

// ---- from thirteen numbers

pub(crate) fn no_details() -> Details
    ensures { result ≡ no_details }
{
    Details {
        number: 0,
        date: DateTime {
            year: 0,
            month: 0,
            day: 0,
            hour: 0,
            minute: 0,
            second: 0,
        },
        amounts: [0; 5],
        kind: Kind::Standard,
    }
}

// Details of kind 0, 1 or 2; all zero for any other kind. C has numbers for kinds, and the definition `of_kind` answers for each number, so there is no error
// that a `TryFrom` could give.
fn of_kind(number: u32, date: DateTime, amounts: [i64; 5], kind: u32) -> Details
    ensures { result ≡ of_kind number date amounts kind }
{
    let kind = match kind {
        0 => Kind::Standard,
        1 => Kind::Cancellation,
        2 => Kind::Training,
        _ => return no_details(),
    };
    Details {
        number,
        date,
        amounts,
        kind,
    }
}

// Thirteen arguments, as the calls from C have them.
pub(crate) fn details_of(
    number: u32,
    year: u32,
    month: u32,
    day: u32,
    hour: u32,
    minute: u32,
    second: u32,
    a: i64,
    b: i64,
    c: i64,
    d: i64,
    e: i64,
    kind: u32,
) -> Details
    ensures { result ≡ details_of number year month day hour minute second a b c d e kind }
{
    let date = DateTime {
        year,
        month,
        day,
        hour,
        minute,
        second,
    };
    of_kind(number, date, [a, b, c, d, e], kind)
}

// ---- as bytes

// The number that C has for a kind.
fn kind_number(kind: Kind) -> u32
    ensures { result ≡ kind_number kind }
{
    match kind {
        Kind::Standard => 0,
        Kind::Cancellation => 1,
        Kind::Training => 2,
    }
}

// Writes eight numbers of four bytes each to the start.
fn put_numbers(numbers: [u32; 8], out: &mut [u8])
    requires { 32 ≤ length out.old }
    ensures { out.new ≡ overwrite out.old 0 (numbers_bytes numbers) }
{
    for (i, number) in numbers.iter().enumerate() {
        let _ = receipt::put_number(out, 4 * i, 4, u64::from(*number));
    }
}

// Writes five amounts of eight bytes each after them.
fn put_amounts(amounts: [i64; 5], out: &mut [u8])
    requires { 72 ≤ length out.old }
    ensures { out.new ≡ overwrite out.old 32 (amounts_bytes amounts) }
{
    for (i, amount) in amounts.iter().enumerate() {
        let _ = receipt::put(out, 32 + 8 * i, &primitives::counter_bytes(8, *amount));
    }
}

// Writes details as 72 bytes.
pub(crate) fn put_details(d: Details, out: &mut [u8])
    requires { length out.old ≡ 72 }
    ensures { out.new ≡ details_bytes d }
{
    let date = d.date;
    put_numbers(
        [
            d.number,
            date.year,
            date.month,
            date.day,
            date.hour,
            date.minute,
            date.second,
            kind_number(d.kind),
        ],
        out,
    );
    put_amounts(d.amounts, out);
}

// ---- from bytes: of a slice of at least 72, since the details of a list from C lie in one slice after another

// Year, month, day, hour, minute and second: the second to the seventh number.
fn date_in(b: &[u8]) -> DateTime
    requires { 72 ≤ length b.now }
    ensures { let d : _ = b.now in result ≡ date_of (number_in d 1) (number_in d 2) (number_in d 3) (number_in d 4) (number_in d 5) (number_in d 6) }
{
    DateTime {
        year: word_at(b, 4),
        month: word_at(b, 8),
        day: word_at(b, 12),
        hour: word_at(b, 16),
        minute: word_at(b, 20),
        second: word_at(b, 24),
    }
}

// The five amounts after the numbers.
fn amounts_in(b: &[u8]) -> [i64; 5]
    requires { 72 ≤ length b.now }
    ensures { let d : _ = b.now in result ≡ amount_in d 0 ∷ amount_in d 1 ∷ amount_in d 2 ∷ amount_in d 3 ∷ amount_in d 4 ∷ [] }
{
    // Five calls: with `array::from_fn` over amounts the proof did not close.
    [
        counter_at(b, 32),
        counter_at(b, 40),
        counter_at(b, 48),
        counter_at(b, 56),
        counter_at(b, 64),
    ]
}

// The details that 72 bytes stand for; all zero if their kind is not 0, 1 or 2.
pub(crate) fn details_in(b: &[u8]) -> Details
    requires { 72 ≤ length b.now }
    ensures { result ≡ details_in b.now }
{
    of_kind(word_at(b, 0), date_in(b), amounts_in(b), word_at(b, 28))
}
