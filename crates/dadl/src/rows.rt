// Rows of the tape: nine numbers each.
ghost use Rattle.std.specs.Prelude.{◌≡◌, ◌+◌, ◌*◌, ◌<◌, length};
ghost use Rattle.std.proofs.lemmas.List.Edits.{sets};
ghost use Rattle.dadl.specs.Clauses.Tape.{row_size};
ghost use Rattle.dadl.specs.Clauses.Answers.{RowFits, row_numbers, number_at, name_at, NameLies, holds_of, type_part, leaf_row, block_row};

use crate::contents::{Leaf, LeafSort};
use crate::tokens::{Opening, Part};
use lexis::Token;

// The numbers of a row.
pub const ROW_SIZE: usize = 9;

// The bytes of the shortest member.
pub const MEMBER_SIZE: usize = 4;

// What a row says that its member holds: a block, a string or a word.
const IS_BLOCK: u16 = 0;

const IS_STRING: u16 = 1;

const IS_WORD: u16 = 2;

// The type of what has none.
const NO_TYPE: Part = Part { start: 0, end: 0 };

// A row but for the number of the next member's: what the member holds, its name, the place of its `<`, its type,
// and the ends of its string or word, or 0 and the number of rows inside it.
#[derive(Clone, Copy)]
pub struct Row {
    pub holds: u16,
    pub name: Part,
    pub place: usize,
    pub type_name: Part,
    pub start: usize,
    pub end: usize,
}

impl From<LeafSort> for u16 {
    ghost from_gives = { λ sort n. n ≡ holds_of sort };

    // What a leaf's row says that its member holds.
    fn from(sort: LeafSort) -> u16 {
        match sort {
            LeafSort::String => IS_STRING,
            LeafSort::Word => IS_WORD,
        }
    }
}

// The places of a block's type, 0 and 0 where it has none.
pub fn type_part(type_name: Option<Part>) -> Part
    ensures { result ≡ type_part type_name }
{
    type_name.unwrap_or(NO_TYPE)
}

impl Row {
    // The row of a leaf.
    pub fn leaf(t: Token, leaf: Leaf) -> Row
        ensures { result ≡ leaf_row t leaf }
    {
        Row {
            holds: u16::from(leaf.sort),
            name: Part::of(t),
            place: leaf.place,
            type_name: NO_TYPE,
            start: leaf.text.start,
            end: leaf.text.end,
        }
    }

    // The row of a block with so many rows inside it.
    pub fn block(t: Token, opening: Opening, inside: usize) -> Row
        ensures { result ≡ block_row t opening inside }
    {
        Row {
            holds: IS_BLOCK,
            name: Part::of(t),
            place: opening.place,
            type_name: type_part(opening.type_name),
            start: 0,
            end: inside,
        }
    }
}

// The number i of row n.
pub fn number(tape: &[u16], n: usize, i: usize) -> usize
    requires { row_size * n + i < length tape.now }
    ensures { result ≡ number_at tape.now n i }
{
    usize::from(tape[ROW_SIZE * n + i])
}

// The name of row n.
pub fn row_name<'a>(s: &'a [u8], tape: &[u16], n: usize) -> &'a [u8]
    requires { NameLies s.now tape.now n }
    ensures { result.now ≡ name_at s.now tape.now n }
{
    let start = number(tape, n, 1);
    let end = number(tape, n, 2);
    &s[start..end]
}

// Writes row n.
pub fn put_row(tape: &mut [u16], n: usize, row: Row, next: usize)
    requires { RowFits n row next tape.old }
    ensures { tape.new ≡ sets tape.old (row_size * n) (row_numbers row next) }
{
    let i = ROW_SIZE * n;
    tape[i] = row.holds;
    tape[i + 1] = row.name.start as u16;
    tape[i + 2] = row.name.end as u16;
    tape[i + 3] = row.place as u16;
    tape[i + 4] = row.type_name.start as u16;
    tape[i + 5] = row.type_name.end as u16;
    tape[i + 6] = row.start as u16;
    tape[i + 7] = row.end as u16;
    tape[i + 8] = next as u16;
}
