// Slots of durations: a pattern's are letters, a word's digits and letters. One walk reads both.
ghost use Rattle.std.specs.Prelude.{◌≡◌, List, ℕ, ◌+◌, ◌≤◌, length, drop};
ghost use Rattle.lexis.specs.Text.{bytes};
ghost use Rattle.lexis.specs.Durations.{in_either_case, letter_slot, digit_slot, filled, fill, fill_all, behind_time, slots_of, pattern_slots};
ghost use Rattle.lexis.specs.Clauses.Answers.{SlotIs, filled_at, FillRoom, FillIs, FlagIs};

use crate::runs::{Digit, past_run};

// How far a walk over slots has come: the slots filled, as a flag, and the place behind them.
#[derive(Clone, Copy)]
pub struct Slots {
    pub flag: u8,
    pub at: usize,
}

// How far a small letter stands behind its capital.
const TO_SMALL: u32 = 32;

// The most digits of a slot.
const MOST_DIGITS: usize = 4;

// The byte is the letter, or the letter as a capital.
fn in_either_case(letter: u8, b: u8) -> bool
    ensures { result ≡ in_either_case letter b }
{
    b == letter || u32::from(b) + TO_SMALL == u32::from(letter)
}

// What the slot of a letter is.
trait Slot {
    ghost size: { ℕ → List ℕ → ℕ };

    // How many bytes the slot of the letter has at a place, where it stands there.
    fn size(w: &[u8], at: usize, letter: u8) -> Option<usize>
        requires { at ≤ length w.now }
        ensures { SlotIs w.now at (size letter (drop at w.now)) result };
}

// In a pattern the letter.
struct LetterAlone;

// In a word one to four digits and the letter.
struct DigitsAndLetter;

impl Slot for LetterAlone {
    ghost size = { letter_slot };

    #[tactic(auto, using(crate::proofs::DurationSteps::of_letters))]
    fn size(w: &[u8], at: usize, letter: u8) -> Option<usize> {
        if at < w.len() && w[at] == letter {
            return Some(1);
        }
        None
    }
}

impl Slot for DigitsAndLetter {
    ghost size = { digit_slot };

    #[tactic(auto, using(crate::proofs::DurationSteps::of_digits))]
    fn size(w: &[u8], at: usize, letter: u8) -> Option<usize> {
        let end = past_run::<Digit>(w, at);
        let digits = end - at;
        if digits == 0 || MOST_DIGITS < digits {
            return None;
        }
        if end < w.len() && in_either_case(letter, w[end]) {
            return Some(digits + 1);
        }
        None
    }
}

// The slot of a letter, whose bit is given, where one stands next.
#[tactic(auto, using(crate::proofs::DurationSteps::of_fills))]
fn fill<S: Slot>(w: &[u8], x: Slots, bit: u8, letter: u8) -> Slots
    requires { FillRoom w.now x bit }
    ensures { FillIs w.now (x.flag + bit) (fill S.size bit letter (filled_at w.now x)) result }
{
    match S::size(w, x.at, letter) {
        Some(size) => Slots {
            flag: x.flag + bit,
            at: x.at + size,
        },
        None => x,
    }
}

// The slots before T.
#[tactic(auto, using(crate::proofs::DurationSteps::dates_filled))]
fn fill_dates<S: Slot>(w: &[u8], at: usize) -> Slots
    requires { at ≤ length w.now }
    ensures { FillIs w.now 15 (fill_all S.size 1 (bytes "ymwd") (filled 0 (drop at w.now))) result }
{
    let none = Slots { flag: 0, at };
    let years = fill::<S>(w, none, 1, b'y');
    let months = fill::<S>(w, years, 2, b'm');
    let weeks = fill::<S>(w, months, 4, b'w');
    fill::<S>(w, weeks, 8, b'd')
}

// The slots behind T.
#[tactic(auto, using(crate::proofs::DurationSteps::times_filled))]
fn fill_times<S: Slot>(w: &[u8], at: usize) -> Slots
    requires { at ≤ length w.now }
    ensures { FillIs w.now 112
        (fill_all S.size 16 (bytes "hms") (filled 0 (drop at w.now))) result }
{
    let none = Slots { flag: 0, at };
    let hours = fill::<S>(w, none, 16, b'h');
    let minutes = fill::<S>(w, hours, 32, b'm');
    fill::<S>(w, minutes, 64, b's')
}

// Behind T: slots, one at least, and the end.
#[tactic(auto, using(crate::proofs::DurationSteps::of_times))]
fn behind_time<S: Slot>(w: &[u8], at: usize, flag: u8) -> Option<u8>
    requires at_in_bounds { at ≤ length w.now }
    requires flag_bound { flag ≤ 15 }
    ensures { FlagIs (behind_time S.size flag (drop at w.now)) result }
{
    let x = fill_times::<S>(w, at);
    if x.at < w.len() || x.flag == 0 {
        return None;
    }
    Some(flag + x.flag)
}

// The slots before T as a flag, where there are any.
fn dates_alone(flag: u8) -> Option<u8>
    requires { flag ≤ 127 }
    ensures { FlagIs flag result }
{
    if flag == 0 { None } else { Some(flag) }
}

// P and slots: the slots filled, as a flag, where the bytes are spelled so.
#[tactic(auto, using(crate::proofs::DurationSteps::of_slots))]
fn slots_of<S: Slot>(w: &[u8]) -> Option<u8>
    ensures { FlagIs (slots_of S.size w.now) result }
{
    if w.is_empty() || w[0] != b'P' {
        return None;
    }
    let x = fill_dates::<S>(w, 1);
    let at = x.at;
    if at == w.len() {
        return dates_alone(x.flag);
    }
    if w[at] != b'T' {
        return None;
    }
    behind_time::<S>(w, at + 1, x.flag)
}

// The flag of the Duration pattern that is spelled so.
#[tactic(auto, unfolding(crate::specs::Durations::pattern_slots))]
pub fn pattern_slots(w: &[u8]) -> Option<u8>
    ensures { FlagIs (pattern_slots w.now) result }
{
    slots_of::<LetterAlone>(w)
}

// The slots that a duration word without a sign fills, as a flag.
pub fn word_slots(w: &[u8]) -> Option<u8>
    ensures { FlagIs (slots_of digit_slot w.now) result }
{
    slots_of::<DigitsAndLetter>(w)
}
