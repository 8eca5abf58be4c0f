// Literals: integers and dates, by the kind that is asked for.
ghost use Rattle.std.specs.Prelude.{◌≡◌, ◌≤◌, length};
ghost use Rattle.cadl_intervals.specs.Intervals.{literal_value};
ghost use Rattle.cadl_intervals.specs.Clauses.Answers.{LiteralIs};

use lexis::DATE;
use refusals::steps::expect;
use refusals::{Cause, Refusal};
use values::dates::date_of;
use values::integers::integer_of;

// A literal's value, an integer as a distance or a day packed, and the place behind it.
#[derive(Clone, Copy)]
pub struct Literal {
    pub value: u32,
    pub next: usize,
}

// The value that bytes spell, of the kind asked for.
fn value_of(w: &[u8], kind: u8) -> Option<u32>
    ensures { result ≡ literal_value kind w.now }
{
    if kind != DATE {
        return integer_of(w);
    }
    let date = date_of(w)?;
    Some(date.day)
}

// A literal of the kind asked for.
#[tactic(auto, using(crate::proofs::IntervalSteps::literal_missing, crate::proofs::IntervalSteps::literal_none, crate::proofs::IntervalSteps::literal_there))]
pub fn read_literal(s: &[u8], kind: u8, from: usize) -> Result<Literal, Refusal>
    requires { from ≤ length s.now }
    ensures { LiteralIs s.now kind from result }
{
    let t = expect(s, kind, from)?;
    match value_of(&s[t.start..t.end], kind) {
        Some(value) => Ok(Literal { value, next: t.end }),
        None => Err(Cause::Impossible.at(t.start)),
    }
}
