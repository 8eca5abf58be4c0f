// The sort of a byte, and tests on bytes.
ghost use Rattle.std.specs.Prelude.{◌≡◌};
ghost use Rattle.lexis.specs.Bytes.{sort_of, is, blank, digit, small, capital, word_byte, string_byte, run_byte, line_end};
ghost use Rattle.lexis.specs.Runs.{byte_at};
ghost use Rattle.lexis.specs.Clauses.Answers.{run_mark};

// The sorts of bytes; any other byte is of the sort 5.
pub const BLANK: u8 = 0;

pub const DIGIT: u8 = 1;

pub const SMALL: u8 = 2;

pub const CAPITAL: u8 = 3;

pub const MARK: u8 = 4;

// The sort of each byte, sixteen to a row: those of 00 to 0F hex in the first. It is laid out on the stack at each call of `sort_of`.
const SORTS: [u8; 256] = *b"\
    \x05\x05\x05\x05\x05\x05\x05\x05\x05\x00\x00\x05\x05\x00\x05\x05\
    \x05\x05\x05\x05\x05\x05\x05\x05\x05\x05\x05\x05\x05\x05\x05\x05\
    \x00\x05\x05\x05\x05\x05\x05\x05\x05\x05\x04\x04\x04\x04\x04\x04\
    \x01\x01\x01\x01\x01\x01\x01\x01\x01\x01\x05\x05\x04\x04\x04\x05\
    \x05\x03\x03\x03\x03\x03\x03\x03\x03\x03\x03\x03\x03\x03\x03\x03\
    \x03\x03\x03\x03\x03\x03\x03\x03\x03\x03\x03\x05\x05\x05\x05\x05\
    \x05\x02\x02\x02\x02\x02\x02\x02\x02\x02\x02\x02\x02\x02\x02\x02\
    \x02\x02\x02\x02\x02\x02\x02\x02\x02\x02\x02\x04\x04\x04\x05\x05\
    \x05\x05\x05\x05\x05\x05\x05\x05\x05\x05\x05\x05\x05\x05\x05\x05\
    \x05\x05\x05\x05\x05\x05\x05\x05\x05\x05\x05\x05\x05\x05\x05\x05\
    \x05\x05\x05\x05\x05\x05\x05\x05\x05\x05\x05\x05\x05\x05\x05\x05\
    \x05\x05\x05\x05\x05\x05\x05\x05\x05\x05\x05\x05\x05\x05\x05\x05\
    \x05\x05\x05\x05\x05\x05\x05\x05\x05\x05\x05\x05\x05\x05\x05\x05\
    \x05\x05\x05\x05\x05\x05\x05\x05\x05\x05\x05\x05\x05\x05\x05\x05\
    \x05\x05\x05\x05\x05\x05\x05\x05\x05\x05\x05\x05\x05\x05\x05\x05\
    \x05\x05\x05\x05\x05\x05\x05\x05\x05\x05\x05\x05\x05\x05\x05\x05";

// The sort of a byte.
pub fn sort_of(b: u8) -> u8
    ensures { result ≡ sort_of b }
{
    SORTS[b as usize]
}

// The byte at a place, and 0 behind the text's end.
pub fn byte_at(s: &[u8], at: usize) -> u8
    ensures { result ≡ byte_at s.now at }
{
    if at < s.len() { s[at] } else { 0 }
}

// Space, tab, CR or LF.
#[tactic(auto, unfolding(crate::specs::Bytes::sort_of))]
pub fn is_blank(b: u8) -> bool
    ensures { result ≡ is blank b }
{
    b == b' ' || matches!(b, b'\t' | b'\n' | b'\r')
}

// CR or LF, which end a comment.
#[tactic(auto, unfolding(crate::specs::Bytes::line_end))]
pub fn line_end(b: u8) -> bool
    ensures { result ≡ line_end b }
{
    matches!(b, b'\r' | b'\n')
}

// A digit.
#[tactic(auto, unfolding(crate::specs::Bytes::sort_of))]
pub fn is_digit(b: u8) -> bool
    ensures { result ≡ is digit b }
{
    matches!(b, b'0'..=b'9')
}

// A small letter.
#[tactic(auto, unfolding(crate::specs::Bytes::sort_of))]
pub fn is_small(b: u8) -> bool
    ensures { result ≡ is small b }
{
    matches!(b, b'a'..=b'z')
}

// A capital.
#[tactic(auto, unfolding(crate::specs::Bytes::sort_of))]
pub fn is_capital(b: u8) -> bool
    ensures { result ≡ is capital b }
{
    matches!(b, b'A'..=b'Z')
}

// A letter, a digit or `_`. Small letters are tested first, since most bytes of names are: one pattern of all four took twice the instructions.
#[tactic(auto, unfolding(crate::specs::Bytes::sort_of, crate::specs::Bytes::word_byte))]
pub fn word_byte(b: u8) -> bool
    ensures { result ≡ word_byte b }
{
    if b'a' <= b {
        b <= b'z'
    } else if b'A' <= b {
        b <= b'Z' || b == b'_'
    } else {
        is_digit(b)
    }
}

// A byte that a string may hold.
#[tactic(auto, unfolding(crate::specs::Bytes::string_byte))]
pub fn string_byte(b: u8) -> bool
    ensures { result ≡ string_byte b }
{
    matches!(b, b' '..=b'~') && b != b'"' && b != b'\\'
}

// One of `+ - . :`.
pub fn run_mark(b: u8) -> bool
    ensures { result ≡ run_mark b }
{
    matches!(b, b'+' | b'-' | b'.' | b':')
}

// A byte of a run of data text: a letter, a digit, or one of `_ + - . :`.
#[tactic(auto, unfolding(crate::specs::Bytes::run_byte))]
pub fn run_byte(b: u8) -> bool
    ensures { result ≡ run_byte b }
{
    word_byte(b) || run_mark(b)
}
