// One token after another: the token that must stand at a place, and the refusals of tokens.
ghost use Rattle.std.specs.Prelude.{◌≡◌, ◌≤◌, length};
ghost use Rattle.refusals.specs.declared.Cause.TheVariants.{TooLong};
ghost use Rattle.refusals.specs.Refusals.{refusal};
ghost use Rattle.refusals.specs.Expecting.{syntax_cause, expect};
ghost use Rattle.refusals.specs.Clauses.Answers.{cause_of, expected_of, ExpectIs};

use crate::{Cause, Refusal};
use lexis::tokens::token_at;
use lexis::{TEXT_END, Token, UNREADABLE};

// Why a token is a syntax fault.
fn syntax_cause(sort: u8) -> Cause
    ensures { result ≡ cause_of sort }
{
    match sort {
        TEXT_END => Cause::EndsEarly,
        UNREADABLE => Cause::Unreadable,
        _ => Cause::CannotFollow,
    }
}

// The refusal of a token that cannot follow.
pub fn syntax_fault(t: Token) -> Refusal
    ensures { result ≡ refusal (syntax_cause t) t.start }
{
    syntax_cause(t.sort).at(t.start)
}

// The refusal of a type, a name, a code or a string that is too long.
pub fn too_long(t: Token) -> Refusal
    ensures { result ≡ refusal TooLong t.start }
{
    Cause::TooLong.at(t.start)
}

// A token, where one of a sort is asked for; else its refusal.
#[tactic(auto, using(crate::proofs::StepLaws::taken_there, crate::proofs::StepLaws::taken_not))]
pub fn taken(t: Token, sort: u8) -> Result<Token, Refusal>
    ensures { result ≡ expected_of t sort }
{
    if t.sort == sort {
        Ok(t)
    } else {
        Err(syntax_fault(t))
    }
}

// A token of constraint text of the sort asked for, or the refusal of the one that stands there.
#[tactic(auto, using(crate::proofs::StepLaws::expect_is))]
pub fn expect(s: &[u8], sort: u8, from: usize) -> Result<Token, Refusal>
    requires { from ≤ length s.now }
    ensures { ExpectIs s.now sort from (expect s.now sort from) result }
{
    taken(token_at(s, from), sort)
}
