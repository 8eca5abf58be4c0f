// Tokens of constraint text.
ghost use Rattle.std.specs.Prelude.{◌≡◌, false, ◌&&◌, ◌||◌, ◌+◌, ◌≤◌, ◌<◌, eqb, length, drop};
ghost use Rattle.lexis.specs.Text.{byte};
ghost use Rattle.lexis.specs.Bytes.{is, digit};
ghost use Rattle.lexis.specs.Runs.{byte_at};
ghost use Rattle.lexis.specs.Spelling.{close_brace, keywords, booleans, date_pattern_spellings, time_pattern_spellings};
ghost use Rattle.lexis.specs.Tokens.{type_name, name, word, number, sign, quoted, code_end, bracket, special, token_on, token_at, pattern_or, content_token_at, spelled, spelling};
ghost use Rattle.lexis.specs.Durations.{pattern_slots};
ghost use Rattle.lexis.specs.Clauses.Answers.{unless_zero, TokenIs, TypeThere};

use crate::durations::pattern_slots;
use crate::reader::{Tokens, token_from};
use crate::runs::{Digit, Text, Word, past_run, shaped, starts_with};
use crate::sorts::{CAPITAL, DIGIT, MARK, SMALL, byte_at, is_digit, sort_of};
use crate::spellings::{Booleans, Keywords, Words, date_pattern, element_sign, mark, time_pattern};
use crate::{
    CLOSE_BRACE, CODE, DATE, DURATION_PATTERN, INTEGER, NAME, STRING, TEXT_END, TYPE_NAME, Token,
    no_token,
};

// A word: of the sort that the list has for it, else of the one given.
fn word<W: Words>(s: &[u8], at: usize, sort: u8) -> Token
    requires { at ≤ length s.now }
    ensures { result ≡ word s.now W.words sort at }
{
    let end = past_run::<Word>(s, at);
    let k = W::sort_of(&s[at..end], sort);
    Token::new(k, at, end)
}

// A time pattern, or else a word that opens with a capital.
fn capital_token(s: &[u8], at: usize) -> Token
    requires { at < length s.now }
    ensures { result
        ≡ spelled time_pattern_spellings at (drop at s.now) (word s.now booleans type_name at) }
{
    let t = word::<Booleans>(s, at, TYPE_NAME);
    time_pattern(s, at, t)
}

// A date pattern, or else a word that opens with a small letter.
fn small_token(s: &[u8], at: usize) -> Token
    requires { at < length s.now }
    ensures { result
        ≡ spelled date_pattern_spellings at (drop at s.now) (word s.now keywords name at) }
{
    let t = word::<Keywords>(s, at, NAME);
    date_pattern(s, at, t)
}

// A date, or else an integer without a sign.
fn number(s: &[u8], at: usize) -> Token
    requires { at ≤ length s.now }
    ensures { result ≡ number s.now at }
{
    if shaped(s, at, b"dddd-dd-dd") {
        return Token::new(DATE, at, at + 10);
    }
    let end = past_run::<Digit>(s, at);
    Token::new(INTEGER, at, end)
}

// A `-` with a digit behind it stands at a place.
fn negative(s: &[u8], at: usize) -> bool
    requires { at < length s.now }
    ensures { result
        ≡ (eqb (byte_at s.now at) (byte "-") && is digit (byte_at s.now (at + 1))) }
{
    s[at] == b'-' && is_digit(byte_at(s, at + 1))
}

// An integer with its sign, or else a mark.
fn sign(s: &[u8], at: usize) -> Token
    requires { at < length s.now }
    ensures { result ≡ sign s.now at }
{
    if negative(s, at) {
        let end = past_run::<Digit>(s, at + 1);
        return Token::new(INTEGER, at, end);
    }
    mark(s, at)
}

// A string with its quotes, of which the first stands at the place.
pub fn quoted(s: &[u8], at: usize) -> Token
    requires { at < length s.now }
    ensures { result ≡ quoted s.now at }
{
    let end = past_run::<Text>(s, at + 1);
    if byte_at(s, end) == b'"' {
        return Token::new(STRING, at, end + 1);
    }
    no_token(at)
}

// A byte that goes on in a code: a digit, or a dot behind a digit.
fn code_byte(b: u8, some: bool) -> bool
    ensures { result ≡ (is digit b || eqb b (byte ".") && some) }
{
    is_digit(b) || (b == b'.' && some)
}

// A bracket behind a digit, which ends a code.
fn code_close(b: u8, some: bool) -> bool
    ensures { result ≡ (eqb b (byte "]") && some) }
{
    b == b']' && some
}

// Behind `[at`: the place behind the code's closing bracket, where a code ends.
#[tactic(auto, using(crate::proofs::TokenSteps::of_codes))]
fn code_end(s: &[u8], from: usize) -> Option<usize>
    requires { from ≤ length s.now }
    ensures { result ≡ unless_zero (code_end false from (drop from s.now)) }
{
    let mut some = false;
    for at in from..s.len() {
        if code_close(s[at], some) {
            return Some(at + 1);
        }
        if !code_byte(s[at], some) {
            return None;
        }
        some = is_digit(s[at]);
    }
    None
}

// A code with its brackets.
#[tactic(auto, using(crate::proofs::TokenSteps::code_room))]
fn bracket(s: &[u8], at: usize) -> Token
    requires { at ≤ length s.now }
    ensures { result ≡ bracket s.now at }
{
    if !starts_with(s, at, b"[at") {
        return no_token(at);
    }
    match code_end(s, at + 3) {
        Some(end) => Token::new(CODE, at, end),
        None => no_token(at),
    }
}

// A string, a code or the sign ∈.
fn special(s: &[u8], at: usize) -> Token
    requires { at < length s.now }
    ensures { result ≡ special s.now at }
{
    match s[at] {
        b'"' => quoted(s, at),
        b'[' => bracket(s, at),
        _ => element_sign(s, at),
    }
}

// The token that starts at a place, by the sort of the byte there; the text's end is a token.
#[tactic(auto, using(crate::proofs::TokenSteps::of_sorts))]
pub fn token_on(s: &[u8], at: usize) -> Token
    requires { at ≤ length s.now }
    ensures { result ≡ token_on s.now at }
{
    if s.len() <= at {
        return Token::new(TEXT_END, at, at);
    }
    match sort_of(s[at]) {
        CAPITAL => capital_token(s, at),
        SMALL => small_token(s, at),
        DIGIT => number(s, at),
        MARK => sign(s, at),
        _ => special(s, at),
    }
}

// The next token of constraint text, from a place on.
#[tactic(auto, using(crate::proofs::TokenSteps::token_told))]
pub fn token_at(s: &[u8], from: usize) -> Token
    requires { from ≤ length s.now }
    ensures { TokenIs s.now from (token_at s.now from) result }
{
    token_from(s, from, Tokens::Constraint)
}

// The next token from a place on is `}`.
fn closes(s: &[u8], from: usize) -> bool
    requires { from ≤ length s.now }
    ensures { result ≡ eqb (token_at s.now from).sort close_brace }
{
    let t = token_at(s, from);
    t.sort == CLOSE_BRACE
}

// The Duration pattern that a TYPE is spelled as, where `}` follows, or else the TYPE.
#[tactic(auto, using(crate::proofs::ContentSteps::type_other))]
fn pattern_or_type(s: &[u8], t: Token) -> Token
    requires { TypeThere s.now t }
    ensures { result ≡ pattern_or s.now t (pattern_slots (spelling s.now t)) }
{
    let start = t.start;
    let end = t.end;
    if s[start] != b'P' {
        return t;
    }
    let Some(flag) = pattern_slots(&s[start..end]) else {
        return t;
    };
    if !closes(s, end) {
        return t;
    }
    Token::new(DURATION_PATTERN + flag, start, end)
}

// The next token of constraint text where a value may stand, from a place on.
#[tactic(auto, using(crate::proofs::ContentSteps::of_content))]
pub fn content_token_at(s: &[u8], from: usize) -> Token
    requires { from ≤ length s.now }
    ensures { TokenIs s.now from (content_token_at s.now from) result }
{
    let t = token_at(s, from);
    if t.sort != TYPE_NAME {
        return t;
    }
    pattern_or_type(s, t)
}
