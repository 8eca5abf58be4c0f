// Bytes of a given shape, and the numbers that digits spell.
ghost use Rattle.std.specs.Prelude.{◌≡◌, ◌+◌, ◌≤◌, length};
ghost use Rattle.values.specs.Dates.{exactly};
ghost use Rattle.values.specs.Clauses.Answers.{DigitIs, DigitsAre};

use lexis::runs::shaped;

// What a digit counts.
pub fn digit_value(b: u8) -> u32
    ensures { DigitIs b result }
{
    u32::from(b.saturating_sub(b'0'))
}

// The bytes are of the shape, all of them.
pub fn exactly(shape: &[u8], w: &[u8]) -> bool
    ensures { result ≡ exactly shape.now w.now }
{
    w.len() == shape.len() && shaped(w, 0, shape)
}

// The number that two digits spell from a place on.
#[tactic(auto, using(crate::proofs::ShapeSteps::two_are))]
pub fn two_digits(w: &[u8], at: usize) -> u32
    requires { at + 2 ≤ length w.now }
    ensures { DigitsAre w.now at 2 3_000 result }
{
    digit_value(w[at]) * 10 + digit_value(w[at + 1])
}

// The number that the first four digits spell.
#[tactic(auto, using(crate::proofs::ShapeSteps::four_are))]
pub fn four_digits(w: &[u8]) -> u32
    requires { 4 ≤ length w.now }
    ensures { DigitsAre w.now 0 4 400_000 result }
{
    two_digits(w, 0) * 100 + two_digits(w, 2)
}
