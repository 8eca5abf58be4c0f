// Tokens that must stand at a place, parts of the text, and a block's type and `<`.
ghost use Rattle.std.specs.Prelude.{◌≡◌, ◌≤◌, length};
ghost use Rattle.refusals.specs.Parsing.{first_in};
ghost use Rattle.refusals.specs.Clauses.Answers.{ExpectIs};
ghost use Rattle.dadl.specs.Data.{expect_data, type_from};
ghost use Rattle.dadl.specs.Clauses.Answers.{part_of, TypeIs, OpeningIs, typed_from, OutermostIs};

use lexis::data_tokens::{mark_token_at, type_token_at};
use lexis::{CLOSE_ROUND, LESS, OPEN_ROUND, TYPE_NAME, Token};
use refusals::Refusal;
use refusals::limits::NAME_LIMIT;
use refusals::steps::{syntax_fault, taken, too_long};

// A part of the text: the place of its first byte and the place behind its last.
#[derive(Clone, Copy)]
pub struct Part {
    pub start: usize,
    pub end: usize,
}

impl Part {
    // The bytes of a token.
    pub fn of(t: Token) -> Part
        ensures { result ≡ part_of t }
    {
        Part {
            start: t.start,
            end: t.end,
        }
    }
}

// A type, and the place behind its `)`.
#[derive(Clone, Copy)]
pub struct TypeName {
    pub part: Part,
    pub next: usize,
}

// A block's `<`, its type, if it has one, and the place behind the `<`.
#[derive(Clone, Copy)]
pub struct Opening {
    pub place: usize,
    pub type_name: Option<Part>,
    pub next: usize,
}

// A token of the sort asked for.
#[tactic(auto, using(crate::proofs::TokenSteps::expect_is))]
pub fn expect_data(s: &[u8], sort: u8, from: usize) -> Result<Token, Refusal>
    requires { from ≤ length s.now }
    ensures { ExpectIs s.now sort from (first_in (expect_data s.now sort from)) result }
{
    taken(mark_token_at(s, from, sort, sort), sort)
}

// Behind `(`: a TYPE and `)`.
#[tactic(auto, using(crate::proofs::TokenSteps::type_fault, crate::proofs::TokenSteps::type_long))]
fn type_from(s: &[u8], from: usize) -> Result<TypeName, Refusal>
    requires { from ≤ length s.now }
    ensures { TypeIs s.now from (first_in (type_from s.now from)) result }
{
    let t = type_token_at(s, from);
    if t.sort != TYPE_NAME {
        return Err(syntax_fault(t));
    }
    if NAME_LIMIT < t.end - t.start {
        return Err(too_long(t));
    }
    let close = expect_data(s, CLOSE_ROUND, t.end)?;
    Ok(TypeName {
        part: Part::of(t),
        next: close.end,
    })
}

// Behind `(`: a TYPE, `)` and `<`.
#[tactic(auto, using(crate::proofs::TokenSteps::typed_next, crate::proofs::TokenSteps::less_there))]
pub fn typed_opening(s: &[u8], from: usize) -> Result<Opening, Refusal>
    requires { from ≤ length s.now }
    ensures { OpeningIs s.now from (typed_from s.now from) result }
{
    let named = type_from(s, from)?;
    let less = expect_data(s, LESS, named.next)?;
    Ok(Opening {
        place: less.start,
        type_name: Some(named.part),
        next: less.end,
    })
}

// The outermost block's type and `<`.
#[tactic(auto, using(crate::proofs::TokenSteps::outermost_typed, crate::proofs::TokenSteps::outermost_opens, crate::proofs::TokenSteps::outermost_shut))]
pub fn outermost_opening(s: &[u8]) -> Result<Opening, Refusal>
    ensures { OutermostIs s.now result }
{
    let t = mark_token_at(s, 0, LESS, OPEN_ROUND);
    match t.sort {
        OPEN_ROUND => typed_opening(s, t.end),
        LESS => Ok(Opening {
            place: t.start,
            type_name: None,
            next: t.end,
        }),
        _ => Err(syntax_fault(t)),
    }
}
