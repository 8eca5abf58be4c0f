// The lexical layer: where tokens start and end in constraint text and in data text, and of which sort they are.
#![tactic(auto)]

ghost use Rattle.std.specs.Prelude.{◌≡◌};
ghost use Rattle.lexis.specs.Tokens.{token, no_token};

pub mod data_tokens;
pub mod durations;
pub mod reader;
pub mod runs;
pub mod sorts;
pub mod spellings;
pub mod tokens;

// A token: its sort, the place of its first byte and the place behind its last.
#[derive(Clone, Copy)]
pub struct Token {
    pub sort: u8,
    pub start: usize,
    pub end: usize,
}

impl Token {
    // The token of a sort from one place up to another.
    pub fn new(sort: u8, start: usize, end: usize) -> Token
        ensures { result ≡ token sort start end }
    {
        Token { sort, start, end }
    }
}

// The sorts of tokens: the text's end, what cannot be read, and what is spelled in many ways.
pub const TEXT_END: u8 = 0;

pub const UNREADABLE: u8 = 1;

pub const TYPE_NAME: u8 = 2;

pub const NAME: u8 = 3;

pub const CODE: u8 = 8;

pub const INTEGER: u8 = 9;

pub const DATE: u8 = 10;

pub const STRING: u8 = 11;

pub const WORD_RUN: u8 = 26;

// The sorts of tokens that are spelled in one way; a date pattern's is 30 and its flag, a time pattern's 40 and its flag.
pub const MATCHES: u8 = 4;

pub const EXISTENCE: u8 = 5;

pub const TRUE_WORD: u8 = 6;

pub const FALSE_WORD: u8 = 7;

pub const OPEN_BRACE: u8 = 12;

pub const CLOSE_BRACE: u8 = 13;

pub const COMMA: u8 = 14;

pub const STAR: u8 = 15;

pub const BAR: u8 = 16;

pub const DOTS: u8 = 17;

pub const LESS: u8 = 18;

pub const GREATER: u8 = 19;

pub const AT_MOST: u8 = 20;

pub const AT_LEAST: u8 = 21;

pub const PLUS_MINUS: u8 = 22;

pub const EQUALS: u8 = 23;

pub const OPEN_ROUND: u8 = 24;

pub const CLOSE_ROUND: u8 = 25;

pub const DATE_PATTERN: u8 = 30;

pub const TIME_PATTERN: u8 = 40;

// The sort before the first Duration pattern's: a pattern's is 100 and its flag.
pub const DURATION_PATTERN: u8 = 100;

// What stands at a place where nothing can be read: a token without bytes.
pub fn no_token(at: usize) -> Token
    ensures { result ≡ no_token at }
{
    Token::new(UNREADABLE, at, at)
}
