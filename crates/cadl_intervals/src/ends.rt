// Intervals: their ends as they are written, and the closed pair that they become.
ghost use Rattle.std.specs.Prelude.{◌≡◌, ◌≤◌, length};
ghost use Rattle.std.specs.declared.result.Result.TheVariants.{Ok};
ghost use Rattle.cadl_intervals.specs.Intervals.{kind_by, least, most, after, before, empty, closed};
ghost use Rattle.cadl_intervals.specs.Clauses.Told.{up_to, above, spread, from, with_literal, between, interval};
ghost use Rattle.cadl_intervals.specs.Clauses.Answers.{HasAfter, HasBefore, ends_of, ends_reading, ends_by, opens_ends, At, NotEmpty, shut, interval_reading, IntervalIs};
ghost use Rattle.refusals.specs.Reading.{got};

use crate::literals::read_literal;
use lexis::tokens::token_at;
use lexis::{AT_LEAST, AT_MOST, BAR, DATE, DOTS, GREATER, INTEGER, LESS, PLUS_MINUS, Token};
use refusals::steps::{expect, syntax_fault};
use refusals::{Cause, Refusal};
use values::calendar::{day_after, day_before};
use values::integers::{GREATEST, around, inside};

// The kind of a list before its first literal is read.
pub const UNDECIDED: u8 = 0;

// 0000-01-01 and 9999-12-31, packed.
const FIRST_DAY: u32 = 101;

const LAST_DAY: u32 = 99_991_231;

// A high end: the greatest value, or the value that all stay below.
#[derive(Clone, Copy)]
pub enum High {
    At(u32),
    Below(u32),
}

// An interval's kind, its ends and the place behind them. A low end that is moved may lie behind the range's end.
#[derive(Clone, Copy)]
pub struct Ends {
    pub kind: u8,
    pub low: u64,
    pub high: High,
    pub next: usize,
}

// An interval's kind, its closed pair and the place behind it.
#[derive(Clone, Copy)]
pub struct Interval {
    pub kind: u8,
    pub low: u32,
    pub high: u32,
    pub next: usize,
}

// The kind of a list: that of its first literal, where it is open.
fn kind_by(kind: u8, t: Token) -> u8
    ensures { result ≡ kind_by kind t }
{
    if kind != UNDECIDED {
        kind
    } else if t.sort == DATE {
        DATE
    } else {
        INTEGER
    }
}

// The least value of a kind.
fn least(kind: u8) -> u32
    ensures { result ≡ least kind }
{
    if kind == DATE { FIRST_DAY } else { 0 }
}

// The greatest value of a kind.
fn most(kind: u8) -> u32
    ensures { result ≡ most kind }
{
    if kind == DATE { LAST_DAY } else { GREATEST }
}

// The value behind another.
fn after(kind: u8, a: u32) -> u64
    requires { HasAfter kind a }
    ensures { result ≡ after kind a }
{
    if kind != DATE {
        return u64::from(a) + 1;
    }
    u64::from(day_after(a))
}

// The value before another.
fn before(kind: u8, b: u32) -> u32
    requires { HasBefore kind b }
    ensures { result ≡ before kind b }
{
    if kind == DATE { day_before(b) } else { b - 1 }
}

// The high end behind `..`.
#[tactic(auto, using(crate::proofs::IntervalSteps::below_faulty, crate::proofs::IntervalSteps::below_there, crate::proofs::IntervalSteps::up_faulty, crate::proofs::IntervalSteps::up_there))]
fn up_to(s: &[u8], kind: u8, low: u64, from: usize) -> Result<Ends, Refusal>
    requires { from ≤ length s.now }
    ensures { ends_reading result ≡ up_to s.now kind low from }
{
    let t = token_at(s, from);
    if t.sort == LESS {
        let b = read_literal(s, kind, t.end)?;
        return Ok(Ends {
            kind,
            low,
            high: High::Below(b.value),
            next: b.next,
        });
    }
    let b = read_literal(s, kind, from)?;
    Ok(Ends {
        kind,
        low,
        high: High::At(b.value),
        next: b.next,
    })
}

// What stands behind `|>a`.
#[tactic(auto, using(crate::proofs::IntervalSteps::above_up, crate::proofs::IntervalSteps::above_open))]
fn above(s: &[u8], kind: u8, a: u32, from: usize) -> Result<Ends, Refusal>
    requires has_after { HasAfter kind a }
    requires from_in_bounds { from ≤ length s.now }
    ensures { ends_reading result ≡ above s.now kind a from }
{
    let low = after(kind, a);
    let t = token_at(s, from);
    if t.sort == DOTS {
        return up_to(s, kind, low, t.end);
    }
    Ok(Ends {
        kind,
        low,
        high: High::At(most(kind)),
        next: from,
    })
}

// The d of `+/-`.
#[tactic(auto, using(crate::proofs::IntervalSteps::spread_faulty, crate::proofs::IntervalSteps::spread_outside, crate::proofs::IntervalSteps::spread_ends))]
fn spread(s: &[u8], a: u32, from: usize) -> Result<Ends, Refusal>
    requires { from ≤ length s.now }
    ensures { ends_reading result ≡ spread s.now a from }
{
    let t = token_at(s, from);
    let d = read_literal(s, INTEGER, from)?;
    if !inside(a, d.value) {
        return Err(Cause::OutOfRange.at(t.start));
    }
    let ends = around(a, d.value);
    Ok(Ends {
        kind: INTEGER,
        low: u64::from(ends.low),
        high: High::At(ends.high),
        next: d.next,
    })
}

// What stands behind `|a`.
#[tactic(auto, using(crate::proofs::IntervalSteps::behind_date, crate::proofs::IntervalSteps::behind_spread, crate::proofs::IntervalSteps::behind_up, crate::proofs::IntervalSteps::behind_only))]
fn behind(s: &[u8], kind: u8, a: u32, at: usize) -> Result<Ends, Refusal>
    requires { at ≤ length s.now }
    ensures { ends_reading result ≡ from s.now kind a at }
{
    let t = token_at(s, at);
    if t.sort == PLUS_MINUS {
        if kind == DATE {
            return Err(syntax_fault(t));
        }
        return spread(s, a, t.end);
    }
    let low = u64::from(a);
    if t.sort == DOTS {
        return up_to(s, kind, low, t.end);
    }
    Ok(Ends {
        kind,
        low,
        high: High::At(a),
        next: at,
    })
}

// What a literal behind a mark, or behind none, makes.
#[tactic(auto, using(crate::proofs::IntervalSteps::by_greater, crate::proofs::IntervalSteps::by_less, crate::proofs::IntervalSteps::by_most, crate::proofs::IntervalSteps::by_least, crate::proofs::IntervalSteps::by_none))]
fn ends_by(s: &[u8], mark: u8, kind: u8, a: u32, next: usize) -> Result<Ends, Refusal>
    requires has_after { HasAfter kind a }
    requires next_in_bounds { next ≤ length s.now }
    ensures { ends_reading result ≡ ends_by s.now mark kind a next }
{
    let low = u64::from(least(kind));
    match mark {
        GREATER => above(s, kind, a, next),
        LESS => Ok(Ends {
            kind,
            low,
            high: High::Below(a),
            next,
        }),
        AT_MOST => Ok(Ends {
            kind,
            low,
            high: High::At(a),
            next,
        }),
        AT_LEAST => Ok(Ends {
            kind,
            low: u64::from(a),
            high: High::At(most(kind)),
            next,
        }),
        _ => behind(s, kind, a, next),
    }
}

// A literal of the kind asked for, or of either where that is open, and what it makes behind a mark.
#[tactic(auto, using(crate::proofs::IntervalSteps::with_faulty, crate::proofs::IntervalSteps::with_ends))]
fn with_literal(s: &[u8], kind: u8, mark: u8, at: usize) -> Result<Ends, Refusal>
    requires { at ≤ length s.now }
    ensures { ends_reading result ≡ with_literal s.now kind at (ends_by s.now mark) }
{
    let k = kind_by(kind, token_at(s, at));
    let a = read_literal(s, k, at)?;
    ends_by(s, mark, k, a.value, a.next)
}

// An interval may begin with the mark.
fn opens(mark: u8) -> bool
    ensures { result ≡ opens_ends mark }
{
    matches!(mark, GREATER | LESS | AT_MOST | AT_LEAST)
}

// What stands between the bars.
#[tactic(auto, using(crate::proofs::IntervalSteps::between_marked, crate::proofs::IntervalSteps::between_plain))]
fn between(s: &[u8], kind: u8, at: usize) -> Result<Ends, Refusal>
    requires { at ≤ length s.now }
    ensures { ends_reading result ≡ between s.now kind at }
{
    let t = token_at(s, at);
    if opens(t.sort) {
        return with_literal(s, kind, t.sort, t.end);
    }
    with_literal(s, kind, t.sort, at)
}

// No value lies between the ends.
fn empty(ends: Ends) -> bool
    ensures { result ≡ empty (ends_of ends) }
{
    match ends.high {
        High::At(b) => u64::from(b) < ends.low,
        High::Below(b) => u64::from(b) <= ends.low,
    }
}

// The closed pair of ends between which a value lies, and the place behind it.
fn closed(ends: Ends, next: usize) -> Interval
    requires { NotEmpty ends }
    ensures { interval_reading (Ok result) ≡ got (shut ends.kind (closed (ends_of ends))) next }
{
    let high = match ends.high {
        High::At(b) => b,
        High::Below(b) => before(ends.kind, b),
    };
    Interval {
        kind: ends.kind,
        low: ends.low as u32,
        high,
        next,
    }
}

// An interval, from behind its opening bar on.
#[tactic(auto, using(crate::proofs::IntervalSteps::interval_faulty, crate::proofs::IntervalSteps::ends_inside, crate::proofs::IntervalSteps::ends_some, crate::proofs::IntervalSteps::bar_missing, crate::proofs::IntervalSteps::bar_empty, crate::proofs::IntervalSteps::bar_closed))]
pub fn read_interval(s: &[u8], kind: u8, from: usize) -> Result<Interval, Refusal>
    requires { At s.now kind from }
    ensures { IntervalIs s.now (interval s.now kind from) result }
{
    let ends = between(s, kind, from)?;
    let bar = expect(s, BAR, ends.next)?;
    if empty(ends) {
        return Err(Cause::EmptyInterval.at(bar.start));
    }
    Ok(closed(ends, bar.end))
}
