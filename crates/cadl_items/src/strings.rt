// Lists of strings.
ghost use Rattle.std.specs.Prelude.{◌≡◌, ◌-◌, ◌≤◌, length};
ghost use Rattle.lexis.specs.Tokens.{string};
ghost use Rattle.lexis.specs.declared.Token.{Token};
ghost use Rattle.refusals.specs.Limits.{text_limit, item_limit};
ghost use Rattle.refusals.specs.Clauses.Answers.{ExpectIs};
ghost use Rattle.cadl_items.specs.Clauses.Spans.{earlier};
ghost use Rattle.cadl_items.specs.Clauses.Told.{start_string, strings};
ghost use Rattle.cadl_items.specs.Clauses.Answers.{LeafRoom};
ghost use Rattle.cadl_items.specs.Clauses.Items.{Before, StringStartIs, kept_string, StringRoom, KeepString, StringIs, StringsIs};

use crate::room::room_left;
use crate::spans::{SCRATCH_ROOM, put, repeated};
use lexis::tokens::token_at;
use lexis::{COMMA, STRING, Token};
use refusals::limits::STRING_LIMIT;
use refusals::steps::{expect, too_long};
use refusals::{Cause, Refusal};

// The bytes of a string's two quotes.
const QUOTES: usize = 2;

// The place behind a string that is in the scratch: no more of the list stands there, or, behind a comma, more.
#[derive(Clone, Copy)]
enum StringEnd {
    Last { next: usize },
    More { next: usize },
}

// The number of a list's strings and the place behind it.
#[derive(Clone, Copy)]
pub struct Strings {
    pub count: usize,
    pub next: usize,
}

// A string that is not too long.
#[tactic(auto, using(crate::proofs::StringSteps::string_missing, crate::proofs::StringSteps::string_long, crate::proofs::StringSteps::string_there))]
fn start_string(s: &[u8], from: usize) -> Result<Token, Refusal>
    requires { from ≤ length s.now }
    ensures { ExpectIs s.now string from (start_string s.now from) result }
{
    let t = expect(s, STRING, from)?;
    if STRING_LIMIT + QUOTES < t.end - t.start {
        return Err(too_long(t));
    }
    Ok(t)
}

// The same, if there is room for one more item and one more record.
#[tactic(auto, using(crate::proofs::StringSteps::text_faulty, crate::proofs::StringSteps::text_full))]
fn roomy_string(s: &[u8], number: usize, count: usize, from: usize) -> Result<Token, Refusal>
    requires { Before s.now number count from }
    ensures { StringStartIs s.now number count from result }
{
    let t = start_string(s, from)?;
    room_left(number, count, t.start)?;
    Ok(t)
}

// Puts a string's places into the scratch, if no earlier one is equal, and looks for a comma behind it.
#[tactic(auto, using(crate::proofs::StringSteps::keep_equal))]
fn keep_string(
    s: &[u8],
    number: usize,
    count: usize,
    t: Token,
    scratch: &mut [u32; SCRATCH_ROOM],
) -> Result<StringEnd, Refusal>
    requires { KeepString s.now number count t scratch.old }
    ensures { StringIs s.now number count
        (kept_string s.now number count (earlier s.now scratch.old 0 count) t t.end)
        scratch.old scratch.new result }
{
    let place = t.start;
    let start = t.start + 1;
    let stop = t.end - 1;
    if repeated(s, scratch, 0, count, &s[start..stop]) {
        return Err(Cause::Overlap.at(place));
    }
    put(scratch, count, start as u32, stop as u32);
    let u = token_at(s, t.end);
    if u.sort == COMMA {
        return Ok(StringEnd::More { next: u.end });
    }
    Ok(StringEnd::Last { next: t.end })
}

// A string of a list behind so many others.
#[tactic(auto, using(crate::proofs::StringSteps::step_faulty, crate::proofs::StringSteps::step_room, crate::proofs::StringSteps::step_kept))]
fn string_item(
    s: &[u8],
    number: usize,
    count: usize,
    from: usize,
    scratch: &mut [u32; SCRATCH_ROOM],
) -> Result<StringEnd, Refusal>
    requires { StringRoom s.now number count from scratch.old }
    ensures { StringIs s.now number count
        (strings s.now (item_limit - count) number
        (earlier s.now scratch.old 0 count) from)
        scratch.old scratch.new result }
{
    let t = roomy_string(s, number, count, from)?;
    keep_string(s, number, count, t, scratch)
}

// The strings of a list.
#[tactic(auto, using(crate::proofs::StringSteps::strings_start, crate::proofs::StringSteps::strings_room, crate::proofs::StringSteps::strings_faulty, crate::proofs::StringSteps::strings_more, crate::proofs::StringSteps::strings_less))]
pub fn read_strings(
    s: &[u8],
    number: usize,
    from: usize,
    scratch: &mut [u32; SCRATCH_ROOM],
) -> Result<Strings, Refusal>
    requires { LeafRoom s.now number from }
    ensures { StringsIs s.now number from scratch.new result }
{
    let mut count: usize = 0;
    let mut at = from;
    loop {
        match string_item(s, number + count, count, at, scratch)? {
            StringEnd::Last { next } => {
                return Ok(Strings {
                    count: count + 1,
                    next,
                });
            }
            StringEnd::More { next } => {
                count += 1;
                at = next;
            }
        }
    }
}
