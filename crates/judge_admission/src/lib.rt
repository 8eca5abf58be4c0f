// Admission: how a value stands to the items of a leaf.
#![tactic(auto)]

ghost use Rattle.std.specs.Prelude.{◌≡◌, [], ◌∷◌, ◌+◌, ◌*◌, ◌≤◌, length};
ghost use Rattle.meaning.specs.Constraints.{RangeSort, booleans, integers, date_pattern, dates, time_pattern, duration_pattern, single, ranges};
ghost use Rattle.meaning.specs.Findings.{try};
ghost use Rattle.meaning.specs.Sorts.{in_range, in_some, range_row};
ghost use Rattle.meaning.specs.Admission.{is_some, word_under};
ghost use Rattle.table.specs.Records.{record_size, record_in};
ghost use Rattle.table.specs.Clauses.Answers.{record_of};
ghost use Rattle.judge_admission.specs.Clauses.Items.{name_of, record_range, ranges_from, texts_from, record_leaf, Chained, Spelled, ItemsGood, NamedRecord};
ghost use Rattle.judge_admission.specs.Clauses.Answers.{finding_of, finding_under, is_admitted, item_admits};

use lexis::runs::same_bytes;
use table::layout::{KIND_AT, STRING_KIND};
use table::records::{Entry, RecordNumber, read};
use values::dates::date_of;
use values::durations::duration_of;
use values::integers::{integer_of, twos_complement};
use values::patterns::{fits_date, fits_duration, fits_time};
use values::times::time_of;
use values::words::boolean_of;

// How a value stands to a leaf: it is not of the kind asked, is not admitted, or is.
#[derive(Clone, Copy)]
pub enum Admission {
    Unsuited,
    Refuted,
    Admitted,
}

// The record with a number, of the bytes of records.
#[tactic(auto, using(crate::proofs::ItemSteps::entry_read))]
pub fn entry_at(records: &[u8], n: RecordNumber) -> Entry
    requires { record_size * n.0 + record_size ≤ length records.now }
    ensures { record_of result ≡ record_in records.now n.0 }
{
    read(records, n.start())
}

// The kind of the record with a number.
#[tactic(auto, using(crate::proofs::ItemSteps::kind_read_at))]
pub fn kind_of(records: &[u8], n: RecordNumber) -> u8
    requires { record_size * n.0 + record_size ≤ length records.now }
    ensures { result ≡ (record_in records.now n.0).kind }
{
    let at = n.start() + KIND_AT;
    records[at]
}

// A value that does not read as its kind is unsuited; one that was tried is admitted or is not.
fn tried(good: Option<bool>) -> Admission
    ensures { finding_of result ≡ try good (λ b. b) }
{
    match good {
        None => Admission::Unsuited,
        Some(false) => Admission::Refuted,
        Some(true) => Admission::Admitted,
    }
}

// What an end of an item is.
trait Ends {
    ghost sort: { RangeSort };

    // The end that a record's field stands for.
    fn end_of(x: u32) -> u32
        ensures { result ≡ (range_row sort).end x };
}

// An end of an integer's item is its distance from the lowest integer.
struct Integers;

// An end of a date's item is its day.
struct Dates;

impl Ends for Integers {
    ghost sort = { integers };

    fn end_of(x: u32) -> u32 {
        twos_complement(x)
    }
}

impl Ends for Dates {
    ghost sort = { dates };

    fn end_of(x: u32) -> u32 {
        x
    }
}

// The value lies between the ends of an item.
#[tactic(auto, using(crate::proofs::ItemSteps::range_below, crate::proofs::ItemSteps::range_above))]
fn in_range<E: Ends>(e: Entry, value: u32) -> bool
    ensures { result ≡ in_range value (record_range E.sort 0 (record_of e)) }
{
    E::end_of(e.a) <= value && value <= E::end_of(e.b)
}

// The value lies in some item of those from a record on, from link to link.
#[tactic(auto, using(crate::proofs::ItemSteps::items_start, crate::proofs::ItemSteps::items_lies, crate::proofs::ItemSteps::ranges_end, crate::proofs::ItemSteps::ranges_found, crate::proofs::ItemSteps::ranges_next, crate::proofs::ItemSteps::ranges_less))]
fn in_some<E: Ends>(records: &[u8], first: RecordNumber, value: u32) -> bool
    requires { Chained records.now (range_row E.sort).kind first.0 }
    ensures { result ≡ in_some value (ranges_from E.sort records.now first.0) }
{
    let mut n = first.0;
    while n != 0 {
        let range = entry_at(records, RecordNumber(n));
        if in_range::<E>(range, value) {
            return true;
        }
        n = range.e;
    }
    false
}

// The part of the pool that a record's place and length name.
#[tactic(auto, using(crate::proofs::ItemSteps::name_part))]
pub fn name_of<'a>(pool: &'a [u8], e: Entry) -> &'a [u8]
    requires { e.a + e.b ≤ length pool.now }
    ensures { result.now ≡ name_of pool.now (record_of e) }
{
    let start = e.a as usize;
    let end = start + (e.b as usize);
    &pool[start..end]
}

// The value is some item of those from a record on, from link to link.
#[tactic(auto, using(crate::proofs::ItemSteps::items_start, crate::proofs::ItemSteps::items_lies, crate::proofs::ItemSteps::text_inside, crate::proofs::ItemSteps::texts_end, crate::proofs::ItemSteps::texts_found, crate::proofs::ItemSteps::texts_next, crate::proofs::ItemSteps::texts_less))]
fn is_some(records: &[u8], pool: &[u8], first: RecordNumber, value: &[u8]) -> bool
    requires chained { Chained records.now 5 first.0 }
    requires spelled { Spelled records.now pool.now first.0 }
    ensures { result
        ≡ is_some value.now (texts_from records.now pool.now first.0) }
{
    let mut n = first.0;
    while n != 0 {
        let text = entry_at(records, RecordNumber(n));
        if same_bytes(value, name_of(pool, text)) {
            return true;
        }
        n = text.e;
    }
    false
}

// A word under Booleans.
#[tactic(auto, unfolding(meaning::specs::Admission::word_under))]
fn boolean_under(flag: u8, value: &[u8]) -> Admission
    ensures { finding_of result ≡ word_under (single booleans 0 flag) value.now }
{
    tried(boolean_of(value).map(|v| flag == v || flag == 3))
}

// A word under integers.
#[tactic(auto, unfolding(meaning::specs::Admission::word_under))]
fn integer_under(records: &[u8], first: RecordNumber, value: &[u8]) -> Admission
    requires { Chained records.now 4 first.0 }
    ensures { finding_of result
        ≡ word_under (ranges integers (ranges_from integers records.now first.0)) value.now }
{
    tried(integer_of(value).map(|v| in_some::<Integers>(records, first, v)))
}

// A word under a date pattern.
#[tactic(auto, unfolding(meaning::specs::Admission::word_under))]
fn date_pattern_under(flag: u8, value: &[u8]) -> Admission
    ensures { finding_of result ≡ word_under (single date_pattern 0 flag) value.now }
{
    tried(date_of(value).map(|date| fits_date(flag, date.parts)))
}

// A word under date intervals, which admit full dates only.
#[tactic(auto, unfolding(meaning::specs::Admission::word_under))]
fn date_under(records: &[u8], first: RecordNumber, value: &[u8]) -> Admission
    requires { Chained records.now 7 first.0 }
    ensures { finding_of result
        ≡ word_under (ranges dates (ranges_from dates records.now first.0)) value.now }
{
    tried(date_of(value).map(|date| date.parts == 3 && in_some::<Dates>(records, first, date.day)))
}

// A word under a time pattern.
#[tactic(auto, unfolding(meaning::specs::Admission::word_under))]
fn time_pattern_under(flag: u8, value: &[u8]) -> Admission
    ensures { finding_of result ≡ word_under (single time_pattern 0 flag) value.now }
{
    tried(time_of(value).map(|parts| fits_time(flag, parts)))
}

// A word under a Duration pattern.
#[tactic(auto, unfolding(meaning::specs::Admission::word_under))]
fn duration_pattern_under(flag: u8, value: &[u8]) -> Admission
    ensures { finding_of result ≡ word_under (single duration_pattern 0 flag) value.now }
{
    tried(duration_of(value).map(|filled| fits_duration(flag, filled)))
}

// A word lies between the ends of an item of integers.
#[tactic(auto, unfolding(meaning::specs::Admission::word_under, meaning::specs::Sorts::in_some))]
fn integer_in(e: Entry, value: &[u8]) -> bool
    ensures { result
        ≡ is_admitted (word_under (ranges integers (record_range integers 0 (record_of e) ∷ [])) value.now) }
{
    integer_of(value).is_some_and(|v| in_range::<Integers>(e, v))
}

// A word is a full date between the ends of an item of dates.
#[tactic(auto, unfolding(meaning::specs::Admission::word_under, meaning::specs::Sorts::in_some))]
fn date_in(e: Entry, value: &[u8]) -> bool
    ensures { result
        ≡ is_admitted (word_under (ranges dates (record_range dates 0 (record_of e) ∷ [])) value.now) }
{
    date_of(value).is_some_and(|date| date.parts == 3 && in_range::<Dates>(e, date.day))
}

// An item of a list admits a value by itself.
#[tactic(auto, using(crate::proofs::ItemSteps::alone_named, crate::proofs::ItemSteps::alone_steps))]
pub fn item_admits(pool: &[u8], e: Entry, value: &[u8], is_string: bool) -> bool
    requires { NamedRecord pool.now (record_of e) }
    ensures { result ≡ item_admits pool.now (record_of e) is_string value.now }
{
    if is_string {
        return e.kind == STRING_KIND && same_bytes(value, name_of(pool, e));
    }
    match e.kind {
        0..=3 => false,
        4 => integer_in(e, value),
        5..=6 => false,
        7 => date_in(e, value),
        8..=255 => false,
    }
}

// How a value stands to the leaf whose first item has a number, by the kind asked.
pub fn admit(
    records: &[u8],
    pool: &[u8],
    first: RecordNumber,
    value: &[u8],
    is_string: bool,
) -> Admission
    requires { ItemsGood records.now pool.now first.0 }
    ensures { finding_of result
        ≡ finding_under (record_leaf records.now pool.now first.0) is_string
        value.now }
{
    let e = entry_at(records, first);
    if is_string {
        return match e.kind {
            0..=4 => Admission::Unsuited,
            5 => tried(Some(is_some(records, pool, first, value))),
            6..=255 => Admission::Unsuited,
        };
    }
    match e.kind {
        0..=2 => Admission::Unsuited,
        3 => boolean_under(e.flag, value),
        4 => integer_under(records, first, value),
        5 => Admission::Unsuited,
        6 => date_pattern_under(e.flag, value),
        7 => date_under(records, first, value),
        8 => time_pattern_under(e.flag, value),
        9 => duration_pattern_under(e.flag, value),
        10..=255 => Admission::Unsuited,
    }
}
