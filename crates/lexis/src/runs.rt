// Runs of bytes, blanks and comments, and bytes compared with what is spelled.
ghost use Rattle.std.specs.Prelude.{◌≡◌, ℕ, Bool, ◌+◌, ◌≤◌, ◌<◌, eqb, length, drop};
ghost use Rattle.lexis.specs.Bytes.{is, digit, word_byte, string_byte, run_byte};
ghost use Rattle.lexis.specs.Runs.{past, byte_at, same, starts_with, shaped, allows};
ghost use Rattle.lexis.specs.Blanks.{token_start};
ghost use Rattle.lexis.specs.Clauses.Answers.{PlaceIs, comment_open, token_here, begins_by};

use crate::sorts::{byte_at, is_blank, is_digit, line_end, run_byte, string_byte, word_byte};

// What the bytes of a run are.
pub trait Class {
    ghost test: { ℕ → Bool };

    // The byte is of the class.
    fn holds(b: u8) -> bool
        ensures { result ≡ test b };
}

// Digits.
#[derive(Clone, Copy)]
pub struct Digit;

// The bytes of words.
#[derive(Clone, Copy)]
pub struct Word;

// The bytes of strings.
#[derive(Clone, Copy)]
pub struct Text;

// The bytes of runs of data text.
#[derive(Clone, Copy)]
pub struct Run;

impl Class for Digit {
    ghost test = { is digit };

    fn holds(b: u8) -> bool {
        is_digit(b)
    }
}

impl Class for Word {
    ghost test = { word_byte };

    fn holds(b: u8) -> bool {
        word_byte(b)
    }
}

impl Class for Text {
    ghost test = { string_byte };

    fn holds(b: u8) -> bool {
        string_byte(b)
    }
}

impl Class for Run {
    ghost test = { run_byte };

    fn holds(b: u8) -> bool {
        run_byte(b)
    }
}

// The first place from one on whose byte is not of the class.
#[tactic(auto, using(crate::proofs::RunSteps::of_runs))]
pub fn past_run<C: Class>(s: &[u8], from: usize) -> usize
    requires { from ≤ length s.now }
    ensures { PlaceIs s.now from (past C.test from (drop from s.now)) result }
{
    for at in from..s.len() {
        if !C::holds(s[at]) {
            return at;
        }
    }
    s.len()
}

// Whether a comment is open behind the byte at a place, by whether one is open before it.
fn comment_open(s: &[u8], at: usize, inside: bool) -> bool
    requires { at < length s.now }
    ensures { result ≡ comment_open inside (byte_at s.now at) (drop (at + 1) s.now) }
{
    if inside {
        !line_end(s[at])
    } else {
        s[at] == b'-' && byte_at(s, at + 1) == b'-'
    }
}

// Whether a token starts at a byte: no comment is open before it or behind it, and it is no blank. No byte above `-` is a blank or opens a comment.
#[tactic(auto, using(crate::proofs::RunSteps::of_places))]
fn token_here(s: &[u8], at: usize, inside: bool) -> bool
    requires { at < length s.now }
    ensures { result ≡ token_here inside (byte_at s.now at) (drop (at + 1) s.now) }
{
    if inside {
        return false;
    }
    let b = s[at];
    if b'-' < b {
        true
    } else if b == b'-' {
        byte_at(s, at + 1) != b'-'
    } else {
        !is_blank(b)
    }
}

// Where the next token starts: behind blanks and comments.
#[tactic(auto, using(crate::proofs::RunSteps::of_blanks))]
pub fn token_start(s: &[u8], from: usize) -> usize
    requires { from ≤ length s.now }
    ensures { PlaceIs s.now from (token_start s.now from) result }
{
    let mut inside = false;
    for at in from..s.len() {
        if token_here(s, at, inside) {
            return at;
        }
        inside = comment_open(s, at, inside);
    }
    s.len()
}

// Which bytes of a text a byte of a spelling admits.
trait Spelling {
    ghost admits: { ℕ → ℕ → Bool };

    fn admits(w: u8, b: u8) -> bool
        ensures { result ≡ admits w b };
}

// A byte admits itself alone.
struct Literal;

// A byte admits itself alone, but `d` any digit.
struct Shape;

impl Spelling for Literal {
    ghost admits = { eqb };

    fn admits(w: u8, b: u8) -> bool {
        w == b
    }
}

impl Spelling for Shape {
    ghost admits = { allows };

    fn admits(w: u8, b: u8) -> bool {
        if w == b'd' { is_digit(b) } else { w == b }
    }
}

// The bytes at a place begin as is spelled.
#[tactic(auto, using(crate::proofs::RunSteps::of_words))]
fn begins<S: Spelling>(s: &[u8], at: usize, w: &[u8]) -> bool
    requires { at ≤ length s.now }
    ensures { result ≡ begins_by S.admits w.now (drop at s.now) }
{
    if s.len() - at < w.len() {
        return false;
    }
    for (i, &b) in w.iter().enumerate() {
        if !S::admits(b, s[at + i]) {
            return false;
        }
    }
    true
}

// The bytes at a place begin with those of the word.
#[tactic(auto, using(crate::proofs::RunSteps::starts_begins))]
pub fn starts_with(s: &[u8], at: usize, w: &[u8]) -> bool
    requires { at ≤ length s.now }
    ensures { result ≡ starts_with w.now (drop at s.now) }
{
    begins::<Literal>(s, at, w)
}

// The bytes at a place begin in that shape.
#[tactic(auto, using(crate::proofs::RunSteps::shaped_begins))]
pub fn shaped(s: &[u8], at: usize, shape: &[u8]) -> bool
    requires { at ≤ length s.now }
    ensures { result ≡ shaped shape.now (drop at s.now) }
{
    begins::<Shape>(s, at, shape)
}

// Two runs of bytes are the same.
#[tactic(auto, using(crate::proofs::RunSteps::same_pointwise))]
pub fn same_bytes(a: &[u8], b: &[u8]) -> bool
    ensures { result ≡ same a.now b.now }
{
    a == b
}
