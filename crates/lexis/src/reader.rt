// The token reader: it holds the text that it reads and its place. Each function over it takes it apart or makes it, and leaves the work to `token_of`.
ghost use Rattle.std.specs.Prelude.{◌≡◌};
ghost use Rattle.lexis.specs.Clauses.Answers.{token_by};

use crate::data_tokens::{Anywhere, BehindRound, data_token_on};
use crate::runs::token_start;
use crate::tokens::token_on;
use crate::{TEXT_END, Token};

// The tokens that are read: those of constraint text, those of data text, or those of data text behind `(`.
#[derive(Clone, Copy)]
pub enum Tokens {
    Constraint,
    Data,
    Behind,
}

#[derive(Clone, Copy)]
pub struct Reader<'a> {
    pub text: &'a [u8],
    pub place: usize,
}

// The next token of a text, from a place on.
#[tactic(auto, using(crate::proofs::ReaderSteps::of_texts))]
fn token_of(s: &[u8], from: usize, tokens: Tokens) -> Token
    ensures { result ≡ token_by tokens s.now from }
{
    if s.len() < from {
        return Token::new(TEXT_END, from, from);
    }
    let at = token_start(s, from);
    match tokens {
        Tokens::Constraint => token_on(s, at),
        Tokens::Data => data_token_on::<Anywhere>(s, at),
        Tokens::Behind => data_token_on::<BehindRound>(s, at),
    }
}

// A reader of a text, at a place.
pub fn reader_at<'a>(text: &'a [u8], place: usize) -> Reader<'a>
    ensures { (result.text ≡ text.entry) × (result.place ≡ place) }
{
    Reader { text, place }
}

// The next token, from the reader's place on.
pub fn next<'a>(r: Reader<'a>, tokens: Tokens) -> Token
    ensures { result ≡ token_by tokens r.entry.text.now r.entry.place }
{
    token_of(r.text, r.place, tokens)
}

// The next token of a text from a place on, by a reader.
pub fn token_from(s: &[u8], from: usize, tokens: Tokens) -> Token
    ensures { result ≡ token_by tokens s.now from }
{
    next(reader_at(s, from), tokens)
}
