// A member's name: its bytes, and whether an earlier member of its block has it.
ghost use Rattle.std.specs.Prelude.{◌≡◌, ◌+◌};
ghost use Rattle.lexis.specs.Runs.{listed};
ghost use Rattle.refusals.specs.Parsing.{first_in};
ghost use Rattle.dadl.specs.Data.{name_from};
ghost use Rattle.dadl.specs.Clauses.Answers.{Inside, Earlier, earlier_names, NameIs, ContentIs, member_reading};

use crate::contents::{Content, content_start};
use crate::rows::{number, row_name};
use crate::tokens::expect_data;
use lexis::{EQUALS, Token};
use refusals::limits::NAME_LIMIT;
use refusals::steps::too_long;
use refusals::{Cause, Refusal};

// Whether bytes are a name of the rows from `first` on, from link to link, up to `end`.
#[tactic(auto, using(crate::proofs::NameSteps::search_steps))]
fn repeated(s: &[u8], tape: &[u16], first: usize, end: usize, name: &[u8]) -> bool
    requires { Earlier s.now tape.now first end }
    ensures { result ≡ listed name.now (earlier_names s.now tape.now first end) }
{
    let mut n = first;
    let mut again = false;
    'names: while n < end {
        let other = row_name(s, tape, n);
        n = number(tape, n, 8);
        if name.len() == other.len() {
            let mut i: usize = 0;
            loop {
                if i == name.len() {
                    again = true;
                    break 'names;
                }
                if name[i] != other[i] {
                    break;
                }
                i += 1;
            }
        }
    }
    again
}

// A member's NAME and `=`: the place behind. The names before it are those of the rows from `first` on up to `end`.
#[tactic(auto, using(crate::proofs::NameSteps::name_long, crate::proofs::NameSteps::name_again))]
fn name_from(s: &[u8], tape: &[u16], first: usize, end: usize, t: Token) -> Result<usize, Refusal>
    requires earlier { Earlier s.now tape.now first end }
    requires inside { Inside s.now t.start t.end }
    ensures { NameIs s.now t
        (first_in (name_from s.now (earlier_names s.now tape.now first end) t)) result }
{
    if NAME_LIMIT < t.end - t.start {
        return Err(too_long(t));
    }
    if repeated(s, tape, first, end, &s[t.start..t.end]) {
        return Err(Cause::RepeatedName.at(t.start));
    }
    let equals = expect_data(s, EQUALS, t.end)?;
    Ok(equals.end)
}

// A member up to its leaf's end, or up to the opening of its block.
#[tactic(auto, using(crate::proofs::NameSteps::member_next))]
pub fn member_start(
    s: &[u8],
    tape: &[u16],
    first: usize,
    end: usize,
    t: Token,
) -> Result<Content, Refusal>
    requires earlier { Earlier s.now tape.now first end }
    requires inside { Inside s.now t.start t.end }
    ensures { ContentIs s.now (t.start + 2)
        (member_reading s.now (earlier_names s.now tape.now first end) t) result }
{
    let next = name_from(s, tape, first, end, t)?;
    content_start(s, next)
}
