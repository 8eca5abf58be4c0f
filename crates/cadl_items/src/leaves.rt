// Leaves: Booleans, lists of integers, of strings and of dates, and patterns.
ghost use Rattle.std.specs.Prelude.{◌≡◌, ◌≤◌, cond, eqb, length};
ghost use Rattle.lexis.specs.Tokens.{content_token_at, date};
ghost use Rattle.lexis.specs.Clauses.Answers.{TokenIs};
ghost use Rattle.meaning.specs.Constraints.{integers, dates};
ghost use Rattle.cadl_items.specs.Leaves.{is_boolean, boolean_flag};
ghost use Rattle.cadl_items.specs.Clauses.Told.{leaf};
ghost use Rattle.cadl_items.specs.Clauses.Answers.{range_sort_of, LeafRoom, LeafIs};
ghost use Rattle.cadl_items.specs.Clauses.Items.{second_by, booleans_by, EveryIs, OneIs, pattern, single_leaf};

use crate::ranges::read_ranges;
use crate::room::record_left;
use crate::spans::SCRATCH_ROOM;
use crate::strings::read_strings;
use lexis::tokens::token_at;
use lexis::{
    BAR, COMMA, DATE, DATE_PATTERN, DURATION_PATTERN, FALSE_WORD, INTEGER, STRING, TIME_PATTERN,
    TRUE_WORD, Token,
};
use refusals::steps::syntax_fault;
use refusals::{Cause, Refusal};

// The first and the last sort of date patterns, of time patterns and of Duration patterns.
const FIRST_DATE_PATTERN: u8 = 31;

const LAST_DATE_PATTERN: u8 = 35;

const FIRST_TIME_PATTERN: u8 = 41;

const LAST_TIME_PATTERN: u8 = 44;

const FIRST_DURATION_PATTERN: u8 = 101;

const LAST_DURATION_PATTERN: u8 = 227;

// The flag of both Booleans.
const BOTH: u8 = 3;

// The sorts of leaves of one record.
#[derive(Clone, Copy)]
pub enum SingleSort {
    Booleans,
    DatePattern,
    TimePattern,
    DurationPattern,
}

// The sorts of lists of closed pairs.
#[derive(Clone, Copy)]
pub enum RangeSort {
    Integers,
    Dates,
}

// A leaf's flag, or the number of its items, which stand in the scratch, and the place behind it. Item i stands at 2i and 2i + 1: an integer's low and
// high end as distances, a date's packed, a string's start and end in the text without its quotes.
#[derive(Clone, Copy)]
pub enum Leaf {
    Single {
        sort: SingleSort,
        flag: u8,
        next: usize,
    },
    Ranges {
        sort: RangeSort,
        count: usize,
        next: usize,
    },
    Strings {
        count: usize,
        next: usize,
    },
}

// The token is a Boolean.
fn is_boolean(t: Token) -> bool
    ensures { result ≡ is_boolean t }
{
    matches!(t.sort, TRUE_WORD | FALSE_WORD)
}

// The flag of one Boolean.
fn boolean_flag(t: Token) -> u8
    ensures { result ≡ boolean_flag t }
{
    if t.sort == TRUE_WORD { 1 } else { 2 }
}

// The second Boolean, behind a comma.
fn second_boolean(s: &[u8], flag: u8, from: usize) -> Result<Leaf, Refusal>
    requires { from ≤ length s.now }
    ensures { EveryIs s.now (second_by s.now flag from) result }
{
    let t = token_at(s, from);
    if !is_boolean(t) {
        return Err(syntax_fault(t));
    }
    if boolean_flag(t) == flag {
        return Err(Cause::Overlap.at(t.start));
    }
    Ok(Leaf::Single {
        sort: SingleSort::Booleans,
        flag: BOTH,
        next: t.end,
    })
}

// Booleans, the first of which is the token.
fn boolean_list(s: &[u8], t: Token) -> Result<Leaf, Refusal>
    requires { t.end ≤ length s.now }
    ensures { EveryIs s.now (booleans_by s.now t) result }
{
    let flag = boolean_flag(t);
    let u = token_at(s, t.end);
    if u.sort == COMMA {
        return second_boolean(s, flag, u.end);
    }
    Ok(Leaf::Single {
        sort: SingleSort::Booleans,
        flag,
        next: t.end,
    })
}

// A pattern, if there is room for its record.
fn pattern_leaf(number: usize, t: Token, sort: SingleSort, flag: u8) -> Result<Leaf, Refusal>
    ensures { result ≡ pattern number t sort flag }
{
    record_left(number, t.start)?;
    Ok(Leaf::Single {
        sort,
        flag,
        next: t.end,
    })
}

// A leaf of one record: Booleans or a pattern, whose first token is t.
fn single_leaf(s: &[u8], number: usize, t: Token) -> Result<Leaf, Refusal>
    requires { t.end ≤ length s.now }
    ensures { OneIs s.now number (single_leaf s.now number t) result }
{
    if is_boolean(t) {
        record_left(number, t.start)?;
        return boolean_list(s, t);
    }
    let sort = t.sort;
    match sort {
        FIRST_DATE_PATTERN..=LAST_DATE_PATTERN => {
            pattern_leaf(number, t, SingleSort::DatePattern, sort - DATE_PATTERN)
        }
        FIRST_TIME_PATTERN..=LAST_TIME_PATTERN => {
            pattern_leaf(number, t, SingleSort::TimePattern, sort - TIME_PATTERN)
        }
        FIRST_DURATION_PATTERN..=LAST_DURATION_PATTERN => pattern_leaf(
            number,
            t,
            SingleSort::DurationPattern,
            sort - DURATION_PATTERN,
        ),
        _ => Err(syntax_fault(t)),
    }
}

// The sort of a list of closed pairs, by its kind.
fn range_sort(kind: u8) -> RangeSort
    ensures { range_sort_of result ≡ cond (eqb kind date) dates integers }
{
    if kind == DATE {
        RangeSort::Dates
    } else {
        RangeSort::Integers
    }
}

// A leaf from a place on, whose first token is t, given the next record's number.
#[tactic(auto, using(crate::proofs::LeafSteps::range_faulty, crate::proofs::LeafSteps::strings_faulty, crate::proofs::LeafSteps::leaf_ranges, crate::proofs::LeafSteps::leaf_strings))]
pub fn read_leaf(
    s: &[u8],
    number: usize,
    from: usize,
    t: Token,
    scratch: &mut [u32; SCRATCH_ROOM],
) -> Result<Leaf, Refusal>
    requires leaf_room { LeafRoom s.now number from }
    requires token_is { TokenIs s.now from (content_token_at s.now from) t }
    ensures { LeafIs s.now number from (leaf s.now number from) scratch.new result }
{
    match t.sort {
        INTEGER | BAR => {
            let list = read_ranges(s, number, from, scratch)?;
            Ok(Leaf::Ranges {
                sort: range_sort(list.kind),
                count: list.count,
                next: list.next,
            })
        }
        STRING => {
            let list = read_strings(s, number, from, scratch)?;
            Ok(Leaf::Strings {
                count: list.count,
                next: list.next,
            })
        }
        _ => single_leaf(s, number, t),
    }
}
