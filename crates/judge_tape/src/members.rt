// Members: the rows of the tape, and the search for a name among those of a block.
ghost use Rattle.std.specs.Prelude.{◌≡◌, ◌+◌, ◌*◌, ◌≤◌, ◌<◌, length};
ghost use Rattle.dadl.specs.Clauses.Tape.{row_size, row_number};
ghost use Rattle.dadl.specs.Clauses.Rows.{row_at, TapeGood};
ghost use Rattle.judge_tape.specs.Clauses.Rows.{Begins, member_row, type_at};

use dadl::Part;
use dadl::rows::row_name;
use lexis::runs::same_bytes;

// A block: the place of its `<`, its type, if it has one, the row of its first member, and the number of rows inside it,
// 0 where it has no member.
#[derive(Clone, Copy)]
pub struct Block {
    pub place: usize,
    pub type_name: Option<Part>,
    pub first: usize,
    pub inside: usize,
}

// The type between two places, none where the second is 0.
pub fn type_at(start: usize, end: usize) -> Option<Part>
    ensures { result ≡ type_at start end }
{
    if end == 0 {
        None
    } else {
        Some(Part { start, end })
    }
}

// The number i of row n: 0 what the member holds (0 a block, 1 a string, 2 a word), 1 and 2 its name, 3 the place of its `<`, 4 and 5 its
// type, 6 and 7 its string or word, or 0 and the number of rows inside it, 8 the row of the next member.
#[tactic(auto, using(crate::proofs::MemberSteps::number_read))]
pub fn number(tape: &[u16], n: usize, i: usize) -> usize
    requires row_size_in_bounds { row_size * n + row_size ≤ length tape.now }
    requires i_lt_row_size { i < row_size }
    ensures { result ≡ row_number (row_at tape.now n) i }
{
    dadl::rows::number(tape, n, i)
}

// The row of the member with a name, if there is one: among the members from row `first` on, none where `inside` is 0.
#[tactic(auto, using(crate::proofs::MemberSteps::row_lies, crate::proofs::MemberSteps::rows_none, crate::proofs::MemberSteps::rows_start, crate::proofs::MemberSteps::rows_next, crate::proofs::MemberSteps::rows_less))]
pub fn find_member(
    s: &[u8],
    tape: &[u16],
    rows: usize,
    first: usize,
    inside: usize,
    name: &[u8],
) -> Option<usize>
    requires tape_good { TapeGood (length s.now) rows tape.now }
    requires begins { Begins rows first inside }
    ensures { result
        ≡ member_row s.now tape.now rows first inside name.now }
{
    if inside == 0 {
        return None;
    }
    let mut n = first;
    loop {
        if same_bytes(name, row_name(s, tape, n)) {
            return Some(n);
        }
        let next = number(tape, n, 8);
        if next == 0 {
            return None;
        }
        n = next;
    }
}
