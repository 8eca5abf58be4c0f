// Dates as they are spelled.
ghost use Rattle.std.specs.Prelude.{◌≡◌, ◌<◌, ◌^◌};
ghost use Rattle.values.specs.Calendar.{packed};
ghost use Rattle.values.specs.Dates.{real_date, date_of};

use crate::calendar::{packed, real};
use crate::shapes::{exactly, four_digits, two_digits};

// A date that was read: how many of year, month and day are there, and the date packed, with 1 for a part that is not there.
#[derive(Clone, Copy)]
pub struct Date {
    pub parts: u8,
    pub day: u32,
}

// The date with so many parts, if the calendar has its day.
fn real_date(parts: u8, y: u32, m: u32, d: u32) -> Option<Date>
    requires { packed y m d < 2 ^ 32 }
    ensures { result ≡ real_date parts (packed y m d) }
{
    let day = packed(y, m, d);
    real(day).then_some(Date { parts, day })
}

// The date that bytes spell, whole or from the year on.
#[tactic(auto, unfolding(crate::specs::Dates::date_of))]
pub fn date_of(w: &[u8]) -> Option<Date>
    ensures { result ≡ date_of w.now }
{
    if exactly(b"dddd", w) {
        real_date(1, four_digits(w), 1, 1)
    } else if exactly(b"dddd-dd", w) {
        real_date(2, four_digits(w), two_digits(w, 5), 1)
    } else if exactly(b"dddd-dd-dd", w) {
        real_date(3, four_digits(w), two_digits(w, 5), two_digits(w, 8))
    } else {
        None
    }
}
