// Times and zones as they are spelled.
ghost use Rattle.std.specs.Prelude.{◌≡◌, ◌+◌, ◌≤◌, leb, length};
ghost use Rattle.values.specs.Dates.{digits_at};
ghost use Rattle.values.specs.Times.{zone, time_of};
ghost use Rattle.values.specs.Clauses.Answers.{east_zone, west_zone, hour_time, minute_time, second_time};

use crate::shapes::{exactly, two_digits};
use lexis::runs::shaped;

// The last hour of a day.
const LAST_HOUR: u32 = 23;

// The last minute of an hour.
const LAST_MINUTE: u32 = 59;

// The last second of a minute.
const LAST_SECOND: u32 = 59;

// The most hours that a zone has with `+`.
const MOST_EAST: u32 = 13;

// The most hours that a zone has with `-`.
const MOST_WEST: u32 = 12;

// Two digits spell a number up to a limit.
fn up_to(w: &[u8], at: usize, most: u32) -> bool
    requires { at + 2 ≤ length w.now }
    ensures { result ≡ leb (digits_at at 2 w.now) most }
{
    two_digits(w, at) <= most
}

// A zone with `+`.
#[tactic(auto, using(crate::proofs::TimeSteps::no_minutes))]
fn east(z: &[u8]) -> bool
    ensures { result ≡ east_zone z.now }
{
    if exactly(b"+dd", z) {
        up_to(z, 1, MOST_EAST)
    } else {
        exactly(b"+dd:dd", z) && up_to(z, 1, MOST_EAST) && up_to(z, 4, LAST_MINUTE)
    }
}

// A zone with `-`, which nought never has.
#[tactic(auto, using(crate::proofs::TimeSteps::no_minutes))]
fn west(z: &[u8]) -> bool
    ensures { result ≡ west_zone z.now }
{
    if exactly(b"-dd", z) {
        up_to(z, 1, MOST_WEST) && 1 <= two_digits(z, 1)
    } else {
        exactly(b"-dd:dd", z)
            && up_to(z, 1, MOST_WEST)
            && up_to(z, 4, LAST_MINUTE)
            && 1 <= two_digits(z, 1) + two_digits(z, 4)
    }
}

// No zone, or a good one.
#[tactic(auto, using(crate::proofs::TimeSteps::zulu_is), unfolding(crate::specs::Times::zone))]
pub fn zone(z: &[u8]) -> bool
    ensures { result ≡ zone z.now }
{
    z.is_empty() || exactly(b"Z", z) || east(z) || west(z)
}

// hh
fn hour_time(w: &[u8]) -> bool
    requires { 2 ≤ length w.now }
    ensures { result ≡ hour_time w.now }
{
    up_to(w, 0, LAST_HOUR) && zone(&w[2..])
}

// hh:mm
fn minute_time(w: &[u8]) -> bool
    requires { 5 ≤ length w.now }
    ensures { result ≡ minute_time w.now }
{
    up_to(w, 0, LAST_HOUR) && up_to(w, 3, LAST_MINUTE) && zone(&w[5..])
}

// hh:mm:ss
fn second_time(w: &[u8]) -> bool
    requires { 8 ≤ length w.now }
    ensures { result ≡ second_time w.now }
{
    up_to(w, 0, LAST_HOUR) && up_to(w, 3, LAST_MINUTE) && up_to(w, 6, LAST_SECOND) && zone(&w[8..])
}

// How many of hours, minutes and seconds the time has that bytes spell, whole or from the hour on, with or without a zone.
#[tactic(auto, using(crate::proofs::TimeSteps::shaped_reaches), unfolding(crate::specs::Times::time_of))]
pub fn time_of(w: &[u8]) -> Option<u8>
    ensures { result ≡ time_of w.now }
{
    if shaped(w, 0, b"dd:dd:dd") {
        second_time(w).then_some(3)
    } else if shaped(w, 0, b"dd:dd") {
        minute_time(w).then_some(2)
    } else if shaped(w, 0, b"dd") {
        hour_time(w).then_some(1)
    } else {
        None
    }
}
