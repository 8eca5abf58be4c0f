// Patterns of dates, times and durations, by their flags.
ghost use Rattle.std.specs.Prelude.{◌≡◌};
ghost use Rattle.values.specs.Patterns.{fits_date, fits_time, slot_fits, fits_duration};

// A date with so many parts fits the pattern: yyyy-mm-dd, yyyy-mm-??, yyyy-??-??, yyyy-mm-XX, yyyy-??-XX.
#[tactic(auto, using(crate::proofs::PatternSteps::date_steps))]
pub fn fits_date(flag: u8, parts: u8) -> bool
    ensures { result ≡ fits_date flag parts }
{
    match flag {
        0 => parts == 0,
        1 => parts == 3,
        2 => (2..=3).contains(&parts),
        3 => (1..=3).contains(&parts),
        4 => parts == 2,
        5 => (1..=2).contains(&parts),
        6..=255 => parts == 0,
    }
}

// A time with so many parts fits the pattern: Thh:mm:ss, Thh:mm:XX, Thh:??:XX, Thh:??:??.
#[tactic(auto, using(crate::proofs::PatternSteps::time_steps))]
pub fn fits_time(flag: u8, parts: u8) -> bool
    ensures { result ≡ fits_time flag parts }
{
    match flag {
        0 => parts == 0,
        1 => parts == 3,
        2 => parts == 2,
        3 => (1..=2).contains(&parts),
        4 => (1..=3).contains(&parts),
        5..=255 => parts == 0,
    }
}

// The lowest slot is in the pattern where it is filled.
fn slot_fits(pattern: u8, filled: u8) -> bool
    ensures { result ≡ slot_fits pattern filled }
{
    filled % 2 == 0 || pattern % 2 == 1
}

// Each slot that a duration fills, of y, m, w, d, h, m and s, is in the pattern.
#[tactic(auto, using(crate::proofs::PatternSteps::slot_steps))]
pub fn fits_duration(pattern: u8, filled: u8) -> bool
    ensures { result ≡ fits_duration pattern filled }
{
    let mut p = pattern;
    let mut f = filled;
    for _ in 0..7_u8 {
        if !slot_fits(p, f) {
            return false;
        }
        p /= 2;
        f /= 2;
    }
    true
}
