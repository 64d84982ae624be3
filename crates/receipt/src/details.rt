// The details of a receipt, and the counter after it.
ghost use Rattle.std.specs.Prelude.{◌≡◌, true};
ghost use Rattle.receipt.specs.Details.{amounts_good, all_zero, start_good, total, counted, counter_after, as_after};

use super::amounts::amounts_good;
use super::datetime::DateTime;
use primitives::counter_fits;

#[derive(Clone, Copy)]
pub enum Kind {
    Standard,
    Cancellation,
    Training,
}

#[derive(Clone, Copy)]
pub struct Details {
    pub number: u32,
    pub date: DateTime,
    pub amounts: [i64; 5],
    pub kind: Kind,
}

// Every amount is zero.
#[tactic(auto, unfolding(crate::specs::Details::all_zero))]
fn all_zero(a: [i64; 5]) -> bool
    ensures { result ≡ all_zero a }
{
    a == [0; 5]
}

// Standard with five zeros: questions 10 and 18.
#[tactic(auto, unfolding(crate::specs::Details::start_good))]
pub fn start_good(d: Details) -> bool
    ensures { result ≡ start_good d }
{
    matches!(d.kind, Kind::Standard) && all_zero(d.amounts)
}

// The sum of amounts that are within the limit.
fn total(a: [i64; 5]) -> i64
    requires { amounts_good a ≡ true }
    ensures { result ≡ total a }
{
    let mut sum = 0;
    for z in a {
        sum += z;
    }
    sum
}

// What a receipt adds to the counter: its amounts, or nothing if it is training.
#[tactic(auto, unfolding(crate::specs::Details::counted))]
fn counted(d: Details) -> i64
    requires { amounts_good d.amounts ≡ true }
    ensures { result ≡ counted d }
{
    match d.kind {
        Kind::Standard | Kind::Cancellation => total(d.amounts),
        Kind::Training => 0,
    }
}

// The counter after a receipt, if it fits: question 11, asked of the counter after all five amounts.
// An amount beyond its limit, the "no" of question 9, gives "does not fit" here. Question 9 comes first, so no call gets this far with such
// an amount, and five amounts within their limits cannot overflow while they are added.
pub fn counter_after(n: usize, counter: i64, d: Details) -> Option<i64>
    ensures { as_after counter result ≡ counter_after n counter d }
{
    if !amounts_good(d.amounts) {
        return None;
    }
    match counter.checked_add(counted(d)) {
        Some(after) if counter_fits(n, after) => Some(after),
        _ => None,
    }
}
