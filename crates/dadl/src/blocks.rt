// Blocks, members and what they put on the tape; the levels left fall from block to block.
ghost use Rattle.std.specs.Prelude.{◌≡◌, [], ◌+◌, ◌*◌, length};
ghost use Rattle.std.proofs.lemmas.List.Edits.{sets};
ghost use Rattle.lexis.specs.DataTokens.{data_token_at};
ghost use Rattle.refusals.specs.Parsing.{first_in};
ghost use Rattle.dadl.specs.Data.{members, block_from};
ghost use Rattle.dadl.specs.Clauses.Tape.{row_size};
ghost use Rattle.dadl.specs.Clauses.Answers.{link_of, row_numbers, Finish, finished, RowsRoom, Earlier, MemberRoom, MemberIs, RowsIs, entries_from};

use crate::contents::Content;
use crate::names::member_start;
use crate::rows::{Row, put_row};
use crate::tokens::Opening;
use lexis::data_tokens::data_token_at;
use lexis::{GREATER, NAME, Token};
use refusals::steps::syntax_fault;
use refusals::{Cause, Refusal};

// The number of the row behind what was read, and the place behind it in the text.
#[derive(Clone, Copy)]
pub struct Rows {
    pub end: usize,
    pub place: usize,
}

// The number of the row behind a member and its rows, and the token behind it.
#[derive(Clone, Copy)]
pub struct Member {
    pub end: usize,
    pub after: Token,
}

// The number of the next member's row, where a name follows.
fn link_of(sort: u8, end: usize) -> usize
    ensures { result ≡ link_of sort end }
{
    if sort == NAME { end } else { 0 }
}

// Writes a member's row, once the token behind the member and its rows is seen.
fn finish(s: &[u8], tape: &mut [u16], n: usize, row: Row, rows: Rows) -> Member
    requires { Finish s.now n row rows tape.old }
    ensures answer { result ≡ finished s.now rows }
    ensures wrote { tape.new
        ≡ sets tape.old (row_size * n) (row_numbers row (link_of (data_token_at s.now rows.place).sort rows.end)) }
{
    let after = data_token_at(s, rows.place);
    let next = link_of(after.sort, rows.end);
    put_row(tape, n, row, next);
    Member {
        end: rows.end,
        after,
    }
}

// A block from behind its `<` on, of at most so many levels: its members from row n on.
#[tactic(auto, using(crate::proofs::BlockSteps::block_deep, crate::proofs::BlockSteps::block_inner, crate::proofs::BlockSteps::block_members))]
#[cycle(read_block_read_member_read_members)]
pub fn read_block(
    s: &[u8],
    levels: usize,
    opening: Opening,
    tape: &mut [u16],
    n: usize,
) -> Result<Rows, Refusal>
    requires { RowsRoom s.now levels opening.next n tape.old }
    ensures { RowsIs s.now opening.next n tape.old
        (entries_from s.now levels opening.place opening.next) tape.new result }
{
    if levels == 0 {
        return Err(Cause::TooDeep.at(opening.place));
    }
    read_members(s, levels - 1, opening.next, tape, n)
}

// The members of a block and its `>`; the blocks inside have at most so many levels.
#[tactic(auto, using(crate::proofs::BlockSteps::members_steps))]
#[cycle(read_block_read_member_read_members)]
fn read_members(
    s: &[u8],
    levels: usize,
    from: usize,
    tape: &mut [u16],
    n: usize,
) -> Result<Rows, Refusal>
    requires { RowsRoom s.now (levels + 1) from n tape.old }
    ensures { RowsIs s.now from n tape.old
        (first_in (members s.now (block_from s.now levels) (length s.now + 1) [] from))
        tape.new result }
{
    let mut end = n;
    let mut t = data_token_at(s, from);
    while t.sort == NAME {
        let member = read_member(s, levels, t, tape, n, end)?;
        end = member.end;
        t = member.after;
    }
    if t.sort != GREATER {
        return Err(syntax_fault(t));
    }
    Ok(Rows { end, place: t.end })
}

// A member of a block whose first row is `first`; its own row is n.
#[tactic(auto, using(crate::proofs::BlockSteps::member_steps))]
#[cycle(read_block_read_member_read_members)]
fn read_member(
    s: &[u8],
    levels: usize,
    t: Token,
    tape: &mut [u16],
    first: usize,
    n: usize,
) -> Result<Member, Refusal>
    requires member_room { MemberRoom s.now levels t n tape.old }
    requires earlier { Earlier s.now tape.old first n }
    ensures { MemberIs s.now levels t first n tape.old tape.new result }
{
    match member_start(s, tape, first, n, t)? {
        Content::Leaf(leaf) => {
            let rows = Rows {
                end: n + 1,
                place: leaf.next,
            };
            Ok(finish(s, tape, n, Row::leaf(t, leaf), rows))
        }
        Content::Block(opening) => {
            let rows = read_block(s, levels, opening, tape, n + 1)?;
            let row = Row::block(t, opening, rows.end - (n + 1));
            Ok(finish(s, tape, n, row, rows))
        }
    }
}
