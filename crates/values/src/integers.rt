// Integers, kept as their distance from -2,147,483,648.
ghost use Rattle.std.specs.Prelude.{◌≡◌, true};
ghost use Rattle.values.specs.Integers.{integer_of, negative, not_negative, twos_complement, magnitude, inside, pair, around};
ghost use Rattle.values.specs.Clauses.Answers.{digits_from, plain_number, short_integer};

use crate::shapes::digit_value;
use lexis::runs::{Digit, past_run};
use lexis::sorts::is_digit;

// 0 as a distance.
const NOUGHT: u32 = 2_147_483_648;

// 2,147,483,647 as a distance.
pub const GREATEST: u32 = 4_294_967_295;

// The number that digits spell, up to 2,147,483,648: a longer run is left as soon as it is larger.
#[tactic(auto, using(crate::proofs::IntegerSteps::digits_steps))]
fn digits(ds: &[u8]) -> Option<u32>
    ensures { result ≡ digits_from 0 ds.now }
{
    let mut n: u32 = 0;
    for &b in ds {
        if !is_digit(b) || 214_748_364 < n {
            return None;
        }
        n = n * 10 + digit_value(b);
    }
    (n <= NOUGHT).then_some(n)
}

// The same of digits without a needless zero in front.
#[tactic(auto, using(crate::proofs::IntegerSteps::plain_steps))]
fn plain_number(ds: &[u8]) -> Option<u32>
    ensures { result ≡ plain_number ds.now }
{
    match ds {
        [] | [b'0', _, ..] => None,
        _ => digits(ds),
    }
}

// An integer from the digits behind `-`.
#[tactic(auto, using(crate::proofs::IntegerSteps::negative_steps))]
fn negative(ds: &[u8]) -> Option<u32>
    ensures { result ≡ negative ds.now }
{
    let n = plain_number(ds)?;
    (1 <= n).then_some(NOUGHT - n)
}

// An integer from digits without `-`: above the greatest the sum is no u32.
#[tactic(auto, using(crate::proofs::IntegerSteps::unsigned_steps))]
fn not_negative(ds: &[u8]) -> Option<u32>
    ensures { result ≡ not_negative ds.now }
{
    NOUGHT.checked_add(plain_number(ds)?)
}

// The integer that bytes spell, as a distance.
#[tactic(auto, using(crate::proofs::IntegerSteps::integer_steps))]
pub fn integer_of(w: &[u8]) -> Option<u32>
    ensures { result ≡ integer_of w.now }
{
    match w {
        [b'-', ds @ ..] => negative(ds),
        _ => not_negative(w),
    }
}

// The most digits with which an integer is in the range whatever they are.
const SHORT: usize = 9;

// The bytes spell an integer with few digits and no `-`, which is then in the range.
#[tactic(auto, using(crate::proofs::IntegerSteps::digits_all), unfolding(crate::specs::Clauses::Answers::short_integer))]
pub fn short_integer(w: &[u8]) -> bool
    ensures { result ≡ short_integer w.now }
{
    match w {
        [] | [b'0', _, ..] => false,
        _ => w.len() <= SHORT && past_run::<Digit>(w, 0) == w.len(),
    }
}

// A distance as 32 bits of two's complement, and back.
pub fn twos_complement(x: u32) -> u32
    ensures { result ≡ twos_complement x }
{
    x.wrapping_add(NOUGHT)
}

// How far d lies from 0.
fn magnitude(d: u32) -> u32
    ensures { result ≡ magnitude d }
{
    d.abs_diff(NOUGHT)
}

// Both a - d and a + d lie in the range.
#[tactic(auto, unfolding(crate::specs::Integers::inside))]
pub fn inside(a: u32, d: u32) -> bool
    ensures { result ≡ inside a d }
{
    let n = magnitude(d);
    n <= a && n <= GREATEST - a
}

// The ends of an interval, as distances.
#[derive(Clone, Copy)]
pub struct Ends {
    pub low: u32,
    pub high: u32,
}

// The ends of |a+/-d|.
#[tactic(auto, unfolding(crate::specs::Integers::inside, crate::specs::Integers::around))]
pub fn around(a: u32, d: u32) -> Ends
    requires { inside a d ≡ true }
    ensures { pair result.low result.high ≡ around a d }
{
    let n = magnitude(d);
    if NOUGHT <= d {
        Ends {
            low: a - n,
            high: a + n,
        }
    } else {
        Ends {
            low: a + n,
            high: a - n,
        }
    }
}
