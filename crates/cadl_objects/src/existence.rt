// Existence, and what opens the braces of objects and attributes.
ghost use Rattle.std.specs.Prelude.{◌≡◌, ◌&&◌, ◌+◌, ◌≤◌, eqb, length};
ghost use Rattle.lexis.specs.Runs.{same};
ghost use Rattle.lexis.specs.Spelling.{open_brace};
ghost use Rattle.lexis.specs.Tokens.{token_at, integer, spelling};
ghost use Rattle.lexis.specs.Clauses.Answers.{TokenIs};
ghost use Rattle.refusals.specs.Clauses.Answers.{ExpectIs};
ghost use Rattle.cadl_items.specs.Clauses.Spans.{Within};
ghost use Rattle.cadl_objects.specs.Existence.{opening, bounds, existence_from};
ghost use Rattle.cadl_objects.specs.Clauses.Answers.{bound_of, ExistenceIs, braced};

use lexis::runs::same_bytes;
use lexis::tokens::token_at;
use lexis::{CLOSE_BRACE, DOTS, EXISTENCE, INTEGER, MATCHES, OPEN_BRACE, Token};
use meaning::{OPTIONAL, PROHIBITED, REQUIRED};
use refusals::Refusal;
use refusals::steps::{expect, syntax_fault, taken};

// An existence's flag and the place behind it.
#[derive(Clone, Copy)]
pub struct Existence {
    pub flag: u8,
    pub next: usize,
}

// `matches {` from a place on, where the next token is t.
#[tactic(auto, unfolding(crate::specs::Existence::opening, refusals::specs::Expecting::expect))]
pub fn opening(s: &[u8], from: usize, t: Token) -> Result<Token, Refusal>
    requires { TokenIs s.now from (token_at s.now from) t }
    ensures { ExpectIs s.now open_brace from (opening s.now from) result }
{
    let keyword = taken(t, MATCHES)?;
    expect(s, OPEN_BRACE, keyword.end)
}

// The token is an integer that is spelled so.
fn spells(s: &[u8], t: Token, w: &[u8]) -> bool
    requires { Within s.now t.start t.end }
    ensures { result ≡ (eqb t.sort integer && same w.now (spelling s.now t)) }
{
    t.sort == INTEGER && same_bytes(w, &s[t.start..t.end])
}

// The bound that a token spells, 0 or 1; else its refusal.
fn bound(s: &[u8], t: Token) -> Result<u8, Refusal>
    requires { Within s.now t.start t.end }
    ensures { result ≡ bound_of s.now t }
{
    if spells(s, t, b"0") {
        Ok(0)
    } else if spells(s, t, b"1") {
        Ok(1)
    } else {
        Err(syntax_fault(t))
    }
}

// The flag of an existence from `low` to `high`.
fn flag_of(low: u8, high: u8) -> u8
    requires { (low ≤ high) × (high ≤ 1) }
    ensures { result ≡ low + high }
{
    match (low, high) {
        (0, 0) => PROHIBITED,
        (0, _) => OPTIONAL,
        _ => REQUIRED,
    }
}

// What stands between the braces of an existence: a bound, alone or with `..` and another behind it.
#[tactic(auto, using(crate::proofs::ExistenceSteps::not_both), unfolding(crate::specs::Existence::bounds, crate::specs::Existence::from_nought, crate::specs::Existence::from_one))]
fn bounds(s: &[u8], from: usize) -> Result<Existence, Refusal>
    requires { from ≤ length s.now }
    ensures { ExistenceIs s.now from (bounds s.now from) result }
{
    let t = token_at(s, from);
    let low = bound(s, t)?;
    let dots = token_at(s, t.end);
    if dots.sort != DOTS {
        return Ok(Existence {
            flag: flag_of(low, low),
            next: t.end,
        });
    }
    let u = token_at(s, dots.end);
    let high = bound(s, u)?;
    if high < low {
        return Err(syntax_fault(u));
    }
    Ok(Existence {
        flag: flag_of(low, high),
        next: u.end,
    })
}

// The existence between its braces.
#[tactic(auto, unfolding(crate::specs::Clauses::Answers::braced))]
fn braced(s: &[u8], from: usize) -> Result<Existence, Refusal>
    requires { from ≤ length s.now }
    ensures { ExistenceIs s.now from (braced s.now from) result }
{
    let open = opening(s, from, token_at(s, from))?;
    let inner = bounds(s, open.end)?;
    let close = expect(s, CLOSE_BRACE, inner.next)?;
    Ok(Existence {
        flag: inner.flag,
        next: close.end,
    })
}

// The existence from a place behind a NAME on, where the next token is t; 1..1 where there is none.
#[tactic(auto, unfolding(crate::specs::Existence::existence_from, crate::specs::Clauses::Answers::braced))]
pub fn existence_from(s: &[u8], from: usize, t: Token) -> Result<Existence, Refusal>
    requires from_in_bounds { from ≤ length s.now }
    requires token_is { TokenIs s.now from (token_at s.now from) t }
    ensures { ExistenceIs s.now from (existence_from s.now from) result }
{
    if t.sort == EXISTENCE {
        braced(s, t.end)
    } else {
        Ok(Existence {
            flag: REQUIRED,
            next: from,
        })
    }
}
