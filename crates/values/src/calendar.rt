// The calendar: leap years, the days of a month, and a day's neighbours.
ghost use Rattle.std.specs.Prelude.{◌≡◌, ◌<◌, ◌≤◌, ◌^◌};
ghost use Rattle.values.specs.Calendar.{leap, month_days, packed, real, first_day, last_day, day_after, day_before};

// The days of January to December, behind a month that has none.
const MONTHS: [u32; 13] = [0, 31, 28, 31, 30, 31, 30, 31, 31, 30, 31, 30, 31];

// The year has a 29 February.
#[tactic(auto, unfolding(crate::specs::Calendar::leap))]
pub fn leap(y: u32) -> bool
    ensures { result ≡ leap y }
{
    y % 4 == 0 && (y % 100 != 0 || y % 400 == 0)
}

// The days of a month, 0 where the year has no such month.
#[tactic(auto, unfolding(crate::specs::Calendar::month_days))]
pub fn month_days(y: u32, m: u32) -> u32
    ensures { result ≡ month_days y m }
{
    if m == 2 && leap(y) {
        29
    } else if m <= 12 {
        MONTHS[m as usize]
    } else {
        0
    }
}

// Year, month and day in one number, whose order is the order of dates.
pub fn packed(y: u32, m: u32, d: u32) -> u32
    requires { packed y m d < 2 ^ 32 }
    ensures { result ≡ packed y m d }
{
    y * 10_000 + m * 100 + d
}

// The packed date is a day of the calendar, up to 9999-12-31.
#[tactic(auto, unfolding(crate::specs::Calendar::real))]
pub fn real(p: u32) -> bool
    ensures { result ≡ real p }
{
    p <= 99_991_231 && 1 <= p % 100 && p % 100 <= month_days(p / 10_000, p / 100 % 100)
}

// The next calendar day.
#[tactic(auto, unfolding(crate::specs::Calendar::day_after))]
pub fn day_after(p: u32) -> u32
    requires { p ≤ last_day }
    ensures { result ≡ day_after p }
{
    let y = p / 10_000;
    let m = p / 100 % 100;
    if p % 100 < month_days(y, m) {
        p + 1
    } else if m < 12 {
        packed(y, m + 1, 1)
    } else {
        packed(y + 1, 1, 1)
    }
}

// The calendar day before.
#[tactic(auto, using(crate::proofs::CalendarSteps::month_most), unfolding(crate::specs::Calendar::day_before))]
pub fn day_before(p: u32) -> u32
    requires { first_day < p }
    ensures { result ≡ day_before p }
{
    let y = p / 10_000;
    let m = p / 100 % 100;
    if 1 < p % 100 {
        p - 1
    } else if 1 < m {
        packed(y, m - 1, month_days(y, m - 1))
    } else {
        packed(y - 1, 12, 31)
    }
}
