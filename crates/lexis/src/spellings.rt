// The tokens that are spelled in one way: marks, the sign ∈, patterns, and words that are no names. But for `spelling`, each function that takes the text is called in one place, so
// that the compiler makes one function of all of them.
ghost use Rattle.std.specs.Prelude.{◌≡◌, List, [], ◌∷◌, ◌<◌, length, drop};
ghost use Rattle.lexis.specs.Spelling.{Literal, literal_of, mark_spellings, element_sign, date_pattern_spellings, time_pattern_spellings, keywords, booleans, word_sort};
ghost use Rattle.lexis.specs.Tokens.{no_token, spelled};
ghost use Rattle.lexis.specs.DataTokens.{data_marks};

use crate::runs::{same_bytes, starts_with};
use crate::{
    AT_LEAST, AT_MOST, BAR, CLOSE_BRACE, CLOSE_ROUND, COMMA, DATE_PATTERN, DOTS, EQUALS, EXISTENCE,
    FALSE_WORD, GREATER, LESS, MATCHES, OPEN_BRACE, OPEN_ROUND, PLUS_MINUS, STAR, TIME_PATTERN,
    TRUE_WORD, Token, no_token,
};

// Words that are spelled in one way, each of a sort of its own.
pub trait Words {
    ghost words: { List Literal };

    // The sort of a whole word: that of the one that it is, else the one given.
    fn sort_of(w: &[u8], sort: u8) -> u8
        ensures { result ≡ word_sort words w.now sort };
}

// The words that are no NAME.
#[derive(Clone, Copy)]
pub struct Keywords;

// The words that are no TYPE.
#[derive(Clone, Copy)]
pub struct Booleans;

impl Words for Keywords {
    ghost words = { keywords };

    #[tactic(auto, unfolding(crate::specs::Spelling::word_sort))]
    fn sort_of(w: &[u8], sort: u8) -> u8 {
        let second = sort_if(w, b"existence", EXISTENCE, sort);
        sort_if(w, b"matches", MATCHES, second)
    }
}

impl Words for Booleans {
    ghost words = { booleans };

    #[tactic(auto, unfolding(crate::specs::Spelling::word_sort))]
    fn sort_of(w: &[u8], sort: u8) -> u8 {
        let second = sort_if(w, b"False", FALSE_WORD, sort);
        sort_if(w, b"True", TRUE_WORD, second)
    }
}

// The spelling w at a place, as a token of a sort; where it does not stand there, the token given.
#[tactic(auto, unfolding(crate::specs::Tokens::spelled))]
fn spelling(s: &[u8], at: usize, w: &[u8], sort: u8, other: Token) -> Token
    requires { at < length s.now }
    ensures { result ≡ spelled (literal_of sort w.now ∷ []) at (drop at s.now) other }
{
    if starts_with(s, at, w) {
        Token::new(sort, at, at + w.len())
    } else {
        other
    }
}

// The first mark of constraint text with which the bytes at a place begin, as a token; where there is none, an unreadable token.
#[tactic(auto, using(crate::proofs::SpellingSteps::marks))]
pub fn mark(s: &[u8], at: usize) -> Token
    requires { at < length s.now }
    ensures { result ≡ spelled mark_spellings at (drop at s.now) (no_token at) }
{
    match s[at] {
        b'{' => Token::new(OPEN_BRACE, at, at + 1),
        b'}' => Token::new(CLOSE_BRACE, at, at + 1),
        b',' => Token::new(COMMA, at, at + 1),
        b'*' => Token::new(STAR, at, at + 1),
        b'|' => Token::new(BAR, at, at + 1),
        b'.' => spelling(s, at, b"..", DOTS, no_token(at)),
        b'<' => spelling(s, at, b"<=", AT_MOST, Token::new(LESS, at, at + 1)),
        b'>' => spelling(s, at, b">=", AT_LEAST, Token::new(GREATER, at, at + 1)),
        b'+' => spelling(s, at, b"+/-", PLUS_MINUS, no_token(at)),
        _ => no_token(at),
    }
}

// The sign ∈ at a place, as a token.
pub fn element_sign(s: &[u8], at: usize) -> Token
    requires { at < length s.now }
    ensures { result ≡ spelled element_sign at (drop at s.now) (no_token at) }
{
    spelling(s, at, b"\xe2\x88\x88", MATCHES, no_token(at))
}

// The mark of data text at a place, as a token.
#[tactic(auto, using(crate::proofs::SpellingSteps::of_data))]
pub fn data_mark(s: &[u8], at: usize) -> Token
    requires { at < length s.now }
    ensures { result ≡ spelled data_marks at (drop at s.now) (no_token at) }
{
    match s[at] {
        b'<' => Token::new(LESS, at, at + 1),
        b'>' => Token::new(GREATER, at, at + 1),
        b'=' => Token::new(EQUALS, at, at + 1),
        b'(' => Token::new(OPEN_ROUND, at, at + 1),
        b')' => Token::new(CLOSE_ROUND, at, at + 1),
        _ => no_token(at),
    }
}

// The date pattern at a place, as a token; where there is none, the token given.
#[tactic(auto, using(crate::proofs::SpellingSteps::date_other), unfolding(crate::specs::Tokens::spelled))]
pub fn date_pattern(s: &[u8], at: usize, other: Token) -> Token
    requires { at < length s.now }
    ensures { result ≡ spelled date_pattern_spellings at (drop at s.now) other }
{
    if s[at] != b'y' {
        return other;
    }
    let fifth = spelling(s, at, b"yyyy-??-XX", DATE_PATTERN + 5, other);
    let fourth = spelling(s, at, b"yyyy-mm-XX", DATE_PATTERN + 4, fifth);
    let third = spelling(s, at, b"yyyy-??-??", DATE_PATTERN + 3, fourth);
    let second = spelling(s, at, b"yyyy-mm-??", DATE_PATTERN + 2, third);
    spelling(s, at, b"yyyy-mm-dd", DATE_PATTERN + 1, second)
}

// The time pattern at a place, as a token; where there is none, the token given.
#[tactic(auto, using(crate::proofs::SpellingSteps::time_other), unfolding(crate::specs::Tokens::spelled))]
pub fn time_pattern(s: &[u8], at: usize, other: Token) -> Token
    requires { at < length s.now }
    ensures { result ≡ spelled time_pattern_spellings at (drop at s.now) other }
{
    if s[at] != b'T' {
        return other;
    }
    let fourth = spelling(s, at, b"Thh:??:??", TIME_PATTERN + 4, other);
    let third = spelling(s, at, b"Thh:??:XX", TIME_PATTERN + 3, fourth);
    let second = spelling(s, at, b"Thh:mm:XX", TIME_PATTERN + 2, third);
    spelling(s, at, b"Thh:mm:ss", TIME_PATTERN + 1, second)
}

// The sort given where a word has that spelling, else the other one.
#[tactic(auto, unfolding(crate::specs::Spelling::word_sort))]
fn sort_if(w: &[u8], spelling: &[u8], sort: u8, other: u8) -> u8
    ensures { result ≡ word_sort (literal_of sort spelling.now ∷ []) w.now other }
{
    if same_bytes(spelling, w) { sort } else { other }
}
