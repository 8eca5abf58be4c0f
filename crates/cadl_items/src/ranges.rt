// Lists of integer items and of date intervals.
ghost use Rattle.std.specs.Prelude.{◌≡◌, not, ◌&&◌, ◌*◌, ◌-◌, ◌≤◌, eqb, length};
ghost use Rattle.lexis.specs.Tokens.{integer, date};
ghost use Rattle.values.specs.Integers.{pair};
ghost use Rattle.refusals.specs.Limits.{item_limit};
ghost use Rattle.cadl_items.specs.Ranges.{meet, overlaps};
ghost use Rattle.cadl_items.specs.Clauses.Told.{start, item, ranges};
ghost use Rattle.cadl_intervals.specs.Clauses.Answers.{At, shut, IntervalIs};
ghost use Rattle.cadl_items.specs.Clauses.Items.{start_of, start_reading, Before, StartIs, pairs_of, kept_range, ItemRoom, KeepRoom, RangeIs, ListRoom, RangesIs};

use crate::room::room_left;
use crate::spans::{SCRATCH_ROOM, put};
use cadl_intervals::ends::{Interval, UNDECIDED, read_interval};
use cadl_intervals::literals::read_literal;
use lexis::tokens::token_at;
use lexis::{BAR, COMMA, DATE, INTEGER};
use refusals::steps::syntax_fault;
use refusals::{Cause, Refusal};

// An item's first token: its place, its value, where it is one, and the place behind it.
#[derive(Clone, Copy)]
struct Start {
    place: usize,
    value: Option<u32>,
    next: usize,
}

// What stands behind an item that is in the scratch, with the list's kind: no more of the list, or a comma and more.
#[derive(Clone, Copy)]
enum RangeEnd {
    Last { kind: u8, next: usize },
    More { kind: u8, next: usize },
}

// A list's kind, the number of its items and the place behind it.
#[derive(Clone, Copy)]
pub struct Ranges {
    pub kind: u8,
    pub count: usize,
    pub next: usize,
}

// A token is a value that may stand in a list of that kind.
fn value_follows(sort: u8, kind: u8) -> bool
    ensures { result ≡ (eqb sort integer && not (eqb kind date)) }
{
    sort == INTEGER && kind != DATE
}

// The first token of an integer or date item.
#[tactic(auto, using(crate::proofs::RangeSteps::start_bar, crate::proofs::RangeSteps::start_other, crate::proofs::RangeSteps::start_faulty, crate::proofs::RangeSteps::start_value))]
fn read_start(s: &[u8], kind: u8, from: usize) -> Result<Start, Refusal>
    requires { from ≤ length s.now }
    ensures { start_reading result ≡ start s.now kind from }
{
    let t = token_at(s, from);
    if t.sort == BAR {
        return Ok(Start {
            place: t.start,
            value: None,
            next: t.end,
        });
    }
    if !value_follows(t.sort, kind) {
        return Err(syntax_fault(t));
    }
    let a = read_literal(s, INTEGER, from)?;
    Ok(Start {
        place: t.start,
        value: Some(a.value),
        next: a.next,
    })
}

// The first token of an item, if there is room for one more item and one more record.
#[tactic(auto, using(crate::proofs::RangeSteps::room_faulty, crate::proofs::RangeSteps::room_full))]
fn roomy_start(
    s: &[u8],
    kind: u8,
    number: usize,
    count: usize,
    from: usize,
) -> Result<Start, Refusal>
    requires { Before s.now number count from }
    ensures { StartIs s.now kind number count from result }
{
    let start = read_start(s, kind, from)?;
    room_left(number, count, start.place)?;
    Ok(start)
}

// The whole item, from behind its first token on.
fn item(s: &[u8], kind: u8, start: Start) -> Result<Interval, Refusal>
    requires { At s.now kind start.next }
    ensures { IntervalIs s.now (item s.now kind (start_of start) start.next) result }
{
    match start.value {
        Some(value) => Ok(Interval {
            kind: INTEGER,
            low: value,
            high: value,
            next: start.next,
        }),
        None => read_interval(s, kind, start.next),
    }
}

// Two pairs share a value.
fn meet(low: u32, high: u32, a: u32, b: u32) -> bool
    ensures { result ≡ meet (pair low high) (pair a b) }
{
    low <= b && a <= high
}

// The pair overlaps one of the first items.
#[tactic(auto, using(crate::proofs::RangeSteps::pairs_meet))]
fn overlaps(scratch: &[u32], count: usize, low: u32, high: u32) -> bool
    requires { 2 * count ≤ length scratch.now }
    ensures { result ≡ overlaps (pair low high) (pairs_of scratch.now count) }
{
    for k in 0..count {
        if meet(low, high, scratch[2 * k], scratch[2 * k + 1]) {
            return true;
        }
    }
    false
}

// Puts an item into the scratch, if it overlaps none, and looks for a comma behind it.
#[tactic(auto, using(crate::proofs::RangeSteps::keep_overlap))]
fn keep_range(
    s: &[u8],
    number: usize,
    count: usize,
    place: usize,
    item: Interval,
    scratch: &mut [u32; SCRATCH_ROOM],
) -> Result<RangeEnd, Refusal>
    requires { KeepRoom s.now item.kind number count item.next }
    ensures { RangeIs s.now number count
        (kept_range s.now number count (pairs_of scratch.old count) place
        (shut item.kind (pair item.low item.high)) item.next)
        scratch.old scratch.new result }
{
    if overlaps(scratch, count, item.low, item.high) {
        return Err(Cause::Overlap.at(place));
    }
    put(scratch, count, item.low, item.high);
    let kind = item.kind;
    let t = token_at(s, item.next);
    if t.sort == COMMA {
        return Ok(RangeEnd::More { kind, next: t.end });
    }
    Ok(RangeEnd::Last {
        kind,
        next: item.next,
    })
}

// An item of a list behind so many others.
#[tactic(auto, using(crate::proofs::RangeSteps::step_faulty, crate::proofs::RangeSteps::step_at, crate::proofs::RangeSteps::step_bad, crate::proofs::RangeSteps::step_room, crate::proofs::RangeSteps::step_kept))]
fn range_item(
    s: &[u8],
    kind: u8,
    number: usize,
    count: usize,
    from: usize,
    scratch: &mut [u32; SCRATCH_ROOM],
) -> Result<RangeEnd, Refusal>
    requires { ItemRoom s.now kind number count from }
    ensures { RangeIs s.now number count
        (ranges s.now (item_limit - count) kind number (pairs_of scratch.old count) from)
        scratch.old scratch.new result }
{
    let start = roomy_start(s, kind, number, count, from)?;
    let pair = item(s, kind, start)?;
    keep_range(s, number, count, start.place, pair, scratch)
}

// The items of a list.
#[tactic(auto, using(crate::proofs::RangeSteps::ranges_start, crate::proofs::RangeSteps::ranges_room, crate::proofs::RangeSteps::ranges_faulty, crate::proofs::RangeSteps::ranges_more, crate::proofs::RangeSteps::ranges_less))]
pub fn read_ranges(
    s: &[u8],
    number: usize,
    from: usize,
    scratch: &mut [u32; SCRATCH_ROOM],
) -> Result<Ranges, Refusal>
    requires { ListRoom s.now number from }
    ensures { RangesIs s.now number from scratch.new result }
{
    let mut kind = UNDECIDED;
    let mut count: usize = 0;
    let mut at = from;
    loop {
        match range_item(s, kind, number + count, count, at, scratch)? {
            RangeEnd::Last { kind: k, next } => {
                return Ok(Ranges {
                    kind: k,
                    count: count + 1,
                    next,
                });
            }
            RangeEnd::More { kind: k, next } => {
                kind = k;
                count += 1;
                at = next;
            }
        }
    }
}
