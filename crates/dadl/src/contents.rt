// What stands behind a member's `=`: a leaf, or the opening of a block.
ghost use Rattle.std.specs.Prelude.{◌≡◌, ◌≤◌, length};
ghost use Rattle.lexis.specs.DataTokens.{data_token_at};
ghost use Rattle.lexis.specs.Clauses.Answers.{TokenIs};
ghost use Rattle.dadl.specs.Clauses.Answers.{Behind, ContentIs, leaf_by, less_from, content_of};

use crate::tokens::{Opening, Part, expect_data, typed_opening};
use lexis::data_tokens::{mark_token_at, value_token_at};
use lexis::{GREATER, LESS, OPEN_ROUND, STRING, Token, WORD_RUN};
use refusals::limits::STRING_LIMIT;
use refusals::steps::{syntax_fault, too_long};
use refusals::{Cause, Refusal};
use values::words::good;

// What a leaf is.
#[derive(Clone, Copy)]
pub enum LeafSort {
    String,
    Word,
}

// A leaf: the place of its `<`, its string or word, and the place behind its `>`.
#[derive(Clone, Copy)]
pub struct Leaf {
    pub sort: LeafSort,
    pub place: usize,
    pub text: Part,
    pub next: usize,
}

// A leaf, or what opens a block.
#[derive(Clone, Copy)]
pub enum Content {
    Leaf(Leaf),
    Block(Opening),
}

// A string, its quotes left out, and `>`.
fn string_leaf(s: &[u8], place: usize, from: usize, t: Token) -> Result<Content, Refusal>
    requires token_is { TokenIs s.now from (data_token_at s.now from) t }
    requires behind { Behind s.now place from }
    requires sort_value { t.sort ≡ 11 }
    ensures { ContentIs s.now place (leaf_by s.now place t) result }
{
    let text = Part {
        start: t.start + 1,
        end: t.end - 1,
    };
    if text.start + STRING_LIMIT < text.end {
        return Err(too_long(t));
    }
    let close = expect_data(s, GREATER, t.end)?;
    Ok(Content::Leaf(Leaf {
        sort: LeafSort::String,
        place,
        text,
        next: close.end,
    }))
}

// A good word and `>`.
fn word_leaf(s: &[u8], place: usize, from: usize, t: Token) -> Result<Content, Refusal>
    requires token_is { TokenIs s.now from (data_token_at s.now from) t }
    requires behind { Behind s.now place from }
    requires sort_value { t.sort ≡ 26 }
    ensures { ContentIs s.now place (leaf_by s.now place t) result }
{
    if !good(&s[t.start..t.end]) {
        return Err(Cause::BadWord.at(t.start));
    }
    let close = expect_data(s, GREATER, t.end)?;
    Ok(Content::Leaf(Leaf {
        sort: LeafSort::Word,
        place,
        text: Part::of(t),
        next: close.end,
    }))
}

// Behind a `<` with no type: a leaf where a string or a word follows, else a block.
#[tactic(auto, using(crate::proofs::ContentSteps::less_string, crate::proofs::ContentSteps::less_word))]
fn less_content(s: &[u8], place: usize, from: usize) -> Result<Content, Refusal>
    requires { Behind s.now place from }
    ensures { ContentIs s.now place (less_from s.now place from) result }
{
    let t = value_token_at(s, from);
    match t.sort {
        STRING => string_leaf(s, place, from, t),
        WORD_RUN => word_leaf(s, place, from, t),
        _ => Ok(Content::Block(Opening {
            place,
            type_name: None,
            next: from,
        })),
    }
}

// What stands behind a member's `=`.
#[tactic(auto, using(crate::proofs::ContentSteps::content_typed, crate::proofs::ContentSteps::content_behind, crate::proofs::ContentSteps::content_fault))]
pub fn content_start(s: &[u8], from: usize) -> Result<Content, Refusal>
    requires { from ≤ length s.now }
    ensures { ContentIs s.now from (content_of s.now from) result }
{
    let t = mark_token_at(s, from, LESS, OPEN_ROUND);
    match t.sort {
        OPEN_ROUND => Ok(Content::Block(typed_opening(s, t.end)?)),
        LESS => less_content(s, t.start, t.end),
        _ => Err(syntax_fault(t)),
    }
}
