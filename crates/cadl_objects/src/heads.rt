// What objects and attributes begin with: a TYPE, a code or a NAME, up to the opening brace.
ghost use Rattle.std.specs.Prelude.{◌≡◌, ◌≤◌, length};
ghost use Rattle.lexis.specs.Tokens.{token_at};
ghost use Rattle.lexis.specs.Clauses.Answers.{TokenIs};
ghost use Rattle.cadl_items.specs.Clauses.Spans.{earlier, SpansIn};
ghost use Rattle.cadl_objects.specs.Clauses.Told.{object_type, attribute_name};
ghost use Rattle.cadl_objects.specs.Clauses.Answers.{Counted, fitting_of, WordIs, CodeIs, ObjectHeadIs, AttributeHeadIs};

use crate::existence::{existence_from, opening};
use cadl_items::spans::repeated;
use lexis::tokens::token_at;
use lexis::{CODE, NAME, TYPE_NAME, Token};
use refusals::limits::{CODE_LIMIT, NAME_LIMIT, RECORD_LIMIT};
use refusals::steps::{expect, too_long};
use refusals::{Cause, Refusal};

// The place of a code, empty where there is none, and the place behind it.
#[derive(Clone, Copy)]
pub struct Code {
    pub start: usize,
    pub end: usize,
    pub next: usize,
}

// An object's type and code, and the place behind its opening brace.
#[derive(Clone, Copy)]
pub struct ObjectHead {
    pub type_start: usize,
    pub type_end: usize,
    pub code_start: usize,
    pub code_end: usize,
    pub next: usize,
}

// An attribute's name and existence, and the place behind its opening brace.
#[derive(Clone, Copy)]
pub struct AttributeHead {
    pub name_start: usize,
    pub name_end: usize,
    pub existence: u8,
    pub next: usize,
}

// The bytes of a code's two brackets.
const BRACKETS: usize = 2;

// A TYPE or a NAME that is not too long, where there is room for its record.
fn fitting(t: Token, next: usize) -> Result<Token, Refusal>
    requires { t.start ≤ t.end }
    ensures { result ≡ fitting_of t next }
{
    if NAME_LIMIT < t.end - t.start {
        Err(too_long(t))
    } else if next == RECORD_LIMIT {
        Err(Cause::TooManyRecords.at(t.start))
    } else {
        Ok(t)
    }
}

// A TYPE that starts an object, where so many levels are left.
#[tactic(auto, using(crate::proofs::HeadSteps::type_fits, crate::proofs::TreeParts::type_is))]
fn object_type(s: &[u8], levels: usize, next: usize, from: usize) -> Result<Token, Refusal>
    requires { Counted s.now next from }
    ensures { WordIs s.now next from (object_type s.now levels next from) result }
{
    let t = expect(s, TYPE_NAME, from)?;
    if levels == 0 {
        return Err(Cause::TooDeep.at(t.start));
    }
    fitting(t, next)
}

// A code without its brackets, where there is one.
#[tactic(auto, using(crate::proofs::TreeParts::code_is, crate::proofs::HeadSteps::code_order, crate::proofs::HeadSteps::inner_size))]
fn object_code(s: &[u8], from: usize) -> Result<Code, Refusal>
    requires { from ≤ length s.now }
    ensures { CodeIs s.now from result }
{
    let t = token_at(s, from);
    if t.sort != CODE {
        return Ok(Code {
            start: from,
            end: from,
            next: from,
        });
    }
    if CODE_LIMIT + BRACKETS < t.end - t.start {
        return Err(too_long(t));
    }
    Ok(Code {
        start: t.start + 1,
        end: t.end - 1,
        next: t.end,
    })
}

// A NAME that starts an attribute; the names before it in its object are the spans from `first` on, up to `top`.
#[tactic(auto, using(crate::proofs::HeadSteps::name_unfit, crate::proofs::TreeParts::name_is_lem))]
fn attribute_name(
    s: &[u8],
    names: &[u32],
    first: usize,
    top: usize,
    next: usize,
    from: usize,
) -> Result<Token, Refusal>
    requires counted { Counted s.now next from }
    requires spans_in { SpansIn s.now names.now first top }
    ensures { WordIs s.now next from
        (attribute_name s.now (earlier s.now names.now first top) next from) result }
{
    let t = fitting(expect(s, NAME, from)?, next)?;
    if repeated(s, names, first, top, &s[t.start..t.end]) {
        return Err(Cause::RepeatedName.at(t.start));
    }
    Ok(t)
}

// What an object begins with: a TYPE, a code where there is one, and `matches {`.
#[tactic(auto, unfolding(crate::specs::Clauses::Answers::object_head))]
pub fn object_head(s: &[u8], levels: usize, next: usize, from: usize) -> Result<ObjectHead, Refusal>
    requires { Counted s.now next from }
    ensures { ObjectHeadIs s.now levels next from result }
{
    let t = object_type(s, levels, next, from)?;
    let code = object_code(s, t.end)?;
    let brace = opening(s, code.next, token_at(s, code.next))?;
    Ok(ObjectHead {
        type_start: t.start,
        type_end: t.end,
        code_start: code.start,
        code_end: code.end,
        next: brace.end,
    })
}

// The token from a place on, which is u where the place is the one that u was read from.
fn token_behind(s: &[u8], from: usize, u: Token, place: usize) -> Token
    requires place_in_bounds { place ≤ length s.now }
    requires token_is { TokenIs s.now from (token_at s.now from) u }
    ensures { TokenIs s.now place (token_at s.now place) result }
{
    if place == from { u } else { token_at(s, place) }
}

// What an attribute begins with: a NAME, an existence where there is one, and `matches {`.
#[tactic(auto, unfolding(crate::specs::Clauses::Answers::attribute_head))]
pub fn attribute_head(
    s: &[u8],
    names: &[u32],
    first: usize,
    top: usize,
    next: usize,
    from: usize,
) -> Result<AttributeHead, Refusal>
    requires counted { Counted s.now next from }
    requires spans_in { SpansIn s.now names.now first top }
    ensures { AttributeHeadIs s.now
        (earlier s.now names.now first top) next from result }
{
    let t = attribute_name(s, names, first, top, next, from)?;
    let u = token_at(s, t.end);
    let existence = existence_from(s, t.end, u)?;
    let v = token_behind(s, t.end, u, existence.next);
    let brace = opening(s, existence.next, v)?;
    Ok(AttributeHead {
        name_start: t.start,
        name_end: t.end,
        existence: existence.flag,
        next: brace.end,
    })
}
