// Tokens of data text.
ghost use Rattle.std.specs.Prelude.{◌≡◌, List, ℕ, ◌≤◌, ◌<◌, length, drop};
ghost use Rattle.lexis.specs.Bytes.{word_byte, run_byte};
ghost use Rattle.lexis.specs.Runs.{past, all};
ghost use Rattle.lexis.specs.DataTokens.{name_sort, run_sort, type_sort, run, data_token_on, data_token_at, type_token_at};
ghost use Rattle.lexis.specs.Clauses.Answers.{PlaceIs, WordEnds, StartsAlike, is_mark, TokenIs};

use crate::reader::{Tokens, token_from};
use crate::runs::{Digit, Run, Word, past_run};
use crate::sorts::{byte_at, is_capital, is_digit, is_small, run_byte, run_mark};
use crate::spellings::{Booleans, Keywords, Words, data_mark};
use crate::tokens::quoted;
use crate::{
    CLOSE_ROUND, EQUALS, GREATER, LESS, NAME, OPEN_ROUND, TEXT_END, TYPE_NAME, Token, UNREADABLE,
    WORD_RUN,
};

// The sort of a run that is a word of the sort given, unless the list spells it; else it is unreadable. `whole` says that it is a word.
fn name_sort<W: Words>(w: &[u8], sort: u8, whole: bool) -> u8
    requires { whole ≡ all word_byte w.now }
    ensures { result ≡ name_sort W.words sort w.now }
{
    if whole && W::sort_of(w, sort) == sort {
        sort
    } else {
        UNREADABLE
    }
}

// Where a run stands, which its sort depends on.
pub trait Standing {
    ghost sorting: { List ℕ → ℕ → ℕ };

    // The sort of a run by its bytes and its first byte. `whole` says that it is a word.
    fn run_sort(w: &[u8], first: u8, whole: bool) -> u8
        requires { whole ≡ all word_byte w.now }
        ensures { result ≡ sorting w.now first };
}

// Where any token may stand.
#[derive(Clone, Copy)]
pub struct Anywhere;

// Behind `(`, where a TYPE stands.
#[derive(Clone, Copy)]
pub struct BehindRound;

impl Standing for Anywhere {
    ghost sorting = { run_sort };

    fn run_sort(w: &[u8], first: u8, whole: bool) -> u8 {
        if is_small(first) {
            name_sort::<Keywords>(w, NAME, whole)
        } else {
            WORD_RUN
        }
    }
}

impl Standing for BehindRound {
    ghost sorting = { type_sort };

    fn run_sort(w: &[u8], first: u8, whole: bool) -> u8 {
        if is_capital(first) {
            name_sort::<Booleans>(w, TYPE_NAME, whole)
        } else {
            UNREADABLE
        }
    }
}

// The end of the run that goes on where a word ends.
#[tactic(auto, using(crate::proofs::DataTokenSteps::end_here))]
fn run_end(s: &[u8], at: usize) -> usize
    requires { WordEnds s.now at }
    ensures { PlaceIs s.now at (past run_byte at (drop at s.now)) result }
{
    if run_mark(byte_at(s, at)) {
        past_run::<Run>(s, at)
    } else {
        at
    }
}

// The run at a place. It is a word where the word at the place ends with it.
#[tactic(auto, using(crate::proofs::DataTokenSteps::of_runs))]
fn run<P: Standing>(s: &[u8], at: usize) -> Token
    requires { at < length s.now }
    ensures { result ≡ run P.sorting s.now at }
{
    let word_end = past_run::<Word>(s, at);
    let end = run_end(s, word_end);
    let k = P::run_sort(&s[at..end], s[at], word_end == end);
    Token::new(k, at, end)
}

// The token that starts at a place; the text's end is a token.
#[tactic(auto, unfolding(crate::specs::DataTokens::data_token_on))]
pub fn data_token_on<P: Standing>(s: &[u8], at: usize) -> Token
    requires { at ≤ length s.now }
    ensures { result ≡ data_token_on P.sorting s.now at }
{
    if s.len() <= at {
        return Token::new(TEXT_END, at, at);
    }
    if run_byte(s[at]) {
        return run::<P>(s, at);
    }
    if s[at] == b'"' {
        return quoted(s, at);
    }
    data_mark(s, at)
}

// The next token of data text, from a place on.
#[tactic(auto, using(crate::proofs::DataTokenSteps::data_told))]
pub fn data_token_at(s: &[u8], from: usize) -> Token
    requires { from ≤ length s.now }
    ensures { TokenIs s.now from (data_token_at s.now from) result }
{
    token_from(s, from, Tokens::Data)
}

// The next token of data text, from a place behind `(` on.
#[tactic(auto, using(crate::proofs::DataTokenSteps::type_told))]
pub fn type_token_at(s: &[u8], from: usize) -> Token
    requires { from ≤ length s.now }
    ensures { TokenIs s.now from (type_token_at s.now from) result }
{
    token_from(s, from, Tokens::Behind)
}

// Behind a space at a place, or else the place.
#[tactic(auto, using(crate::proofs::QuickSteps::of_spaces))]
fn behind_space(s: &[u8], from: usize) -> usize
    requires { from ≤ length s.now }
    ensures { StartsAlike s.now from result }
{
    if byte_at(s, from) == b' ' {
        from + 1
    } else {
        from
    }
}

// The byte is the mark of that sort.
fn is_mark(b: u8, sort: u8) -> bool
    ensures { result ≡ is_mark b sort }
{
    match sort {
        LESS => b == b'<',
        GREATER => b == b'>',
        EQUALS => b == b'=',
        OPEN_ROUND => b == b'(',
        CLOSE_ROUND => b == b')',
        _ => false,
    }
}

// The next token of data text, from a place on: quick where it is a mark of one of two sorts, at the place or behind a space there.
#[tactic(auto, using(crate::proofs::QuickSteps::mark_told))]
pub fn mark_token_at(s: &[u8], from: usize, first: u8, second: u8) -> Token
    requires { from ≤ length s.now }
    ensures { TokenIs s.now from (data_token_at s.now from) result }
{
    let at = behind_space(s, from);
    let b = byte_at(s, at);
    if is_mark(b, first) {
        return Token::new(first, at, at + 1);
    }
    if is_mark(b, second) {
        return Token::new(second, at, at + 1);
    }
    data_token_at(s, from)
}

// The next token of data text, from a place on: quick where it is a string or a run of digits, at the place.
#[tactic(auto, using(crate::proofs::QuickSteps::of_values))]
pub fn value_token_at(s: &[u8], from: usize) -> Token
    requires { from ≤ length s.now }
    ensures { TokenIs s.now from (data_token_at s.now from) result }
{
    let b = byte_at(s, from);
    if b == b'"' {
        return quoted(s, from);
    }
    if is_digit(b) {
        let end = past_run::<Digit>(s, from);
        if !run_byte(byte_at(s, end)) {
            return Token::new(WORD_RUN, from, end);
        }
    }
    data_token_at(s, from)
}
