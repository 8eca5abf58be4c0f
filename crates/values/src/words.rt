// Words: what they read as.
ghost use Rattle.std.specs.Prelude.{◌≡◌};
ghost use Rattle.values.specs.Words.{boolean_of, good};

use crate::dates::date_of;
use crate::durations::duration_of;
use crate::integers::{integer_of, short_integer};
use crate::times::time_of;

// The Boolean that bytes spell: 1 for True and 2 for False.
#[tactic(auto, using(crate::proofs::WordSteps::steps), unfolding(crate::specs::Words::boolean_of))]
pub fn boolean_of(w: &[u8]) -> Option<u8>
    ensures { result ≡ boolean_of w.now }
{
    match w {
        b"True" => Some(1),
        b"False" => Some(2),
        _ => None,
    }
}

// The word reads as a Boolean, an integer, a date, a time or a duration; a short integer is told first, since most words are one.
#[tactic(auto, using(crate::proofs::IntegerSteps::short_reads), unfolding(crate::specs::Words::good))]
pub fn good(w: &[u8]) -> bool
    ensures { result ≡ good w.now }
{
    short_integer(w)
        || boolean_of(w).is_some()
        || integer_of(w).is_some()
        || date_of(w).is_some()
        || time_of(w).is_some()
        || duration_of(w).is_some()
}
