// The rules of a record's flag and fields.
ghost use Rattle.std.specs.Prelude.{◌≡◌, ◌&&◌, [], ◌∷◌, ltb};
ghost use Rattle.lexis.specs.Bytes.{among};
ghost use Rattle.values.specs.Integers.{twos_complement};
ghost use Rattle.table.specs.Records.{image_of};
ghost use Rattle.table.specs.Rows.{object_kind, link, items, none_named};
ghost use Rattle.meaning.specs.Constraints.{integers, dates};
ghost use Rattle.table.specs.Check.{pair_right, field_right, rest_nought, flag_right, obeys, clean};
ghost use Rattle.table.specs.Clauses.Answers.{record_of, Opened, RecordPlaceIs, fields_kept, next_right};

use crate::layout::ATTRIBUTE_KIND;
use crate::records::{Entry, Frame, PoolPlace, RecordNumber, kind_at};
use refusals::limits::{CODE_LIMIT, NAME_LIMIT, STRING_LIMIT};
use values::calendar::real;

// A table with the counts of its header.
#[derive(Clone, Copy)]
pub struct Table<'a> {
    pub bytes: &'a [u8],
    pub frame: Frame,
    ghost opened: { Opened bytes.now frame },
}

// The kind is a record's, and the flag one of the kind's.
#[tactic(auto, using(crate::proofs::RuleSteps::flag_steps), unfolding(crate::specs::Rows::shape_of))]
fn flag_right(kind: u8, flag: u8) -> bool
    ensures { result ≡ flag_right kind flag }
{
    match kind {
        0 => false,
        1 => flag == 0,
        2 => match flag {
            0..=2 => true,
            3..=255 => false,
        },
        3 => match flag {
            0 => false,
            1..=3 => true,
            4..=255 => false,
        },
        4 => flag == 0,
        5 => flag == 0,
        6 => match flag {
            0 => false,
            1..=5 => true,
            6..=255 => false,
        },
        7 => flag == 0,
        8 => match flag {
            0 => false,
            1..=4 => true,
            5..=255 => false,
        },
        9 => match flag {
            0 => false,
            1..=127 => true,
            128..=255 => false,
        },
        10..=255 => false,
    }
}

// A place and a length in a pool of so many bytes: the length is within its limits, and length 0 has place 0.
#[tactic(auto, using(crate::proofs::RuleSteps::rule_steps))]
fn place_right(pool: u32, place: PoolPlace, length: u32, least: u32, most: u32) -> bool
    ensures { RecordPlaceIs pool least most place.0 length result }
{
    least <= length
        && length <= most
        && if length == 0 {
            place.0 == 0
        } else {
            u64::from(place.0) + u64::from(length) <= u64::from(pool)
        }
}

// How far an integer in two's complement lies from the lowest one.
fn distance(x: u32) -> u64
    ensures { result ≡ twos_complement x }
{
    (u64::from(x) + 2147483648) % 4294967296
}

// The low end of a pair of integers is at most the high one.
#[tactic(auto, using(crate::proofs::RuleSteps::rule_steps))]
fn integers_right(low: u32, high: u32) -> bool
    ensures { result ≡ pair_right integers low high }
{
    distance(low) <= distance(high)
}

// Both ends of a pair of dates are days, and the low one is not the later.
#[tactic(auto, using(crate::proofs::RuleSteps::rule_steps))]
fn dates_right(low: u32, high: u32) -> bool
    ensures { result ≡ pair_right dates low high }
{
    real(low) && real(high) && low <= high
}

// A number is above a record's own and below the count.
#[tactic(auto, using(crate::proofs::Chains::chain_steps))]
fn leads_up(frame: Frame, n: RecordNumber, to: RecordNumber) -> bool
    ensures { result ≡ (ltb n.0 to.0 && ltb to.0 frame.count) }
{
    n.0 < to.0 && to.0 < frame.count
}

// The kind is an object's or a leaf's first item's.
#[tactic(auto, using(crate::proofs::RuleSteps::value_steps))]
fn is_value(kind: u8) -> bool
    ensures { result ≡ among kind (object_kind ∷ items) }
{
    match kind {
        0 => false,
        1 => true,
        2 => false,
        3..=9 => true,
        10..=255 => false,
    }
}

// The longest names of types and attributes, codes and strings, as a table holds them.
const NAME_MOST: u32 = NAME_LIMIT as u32;

const CODE_MOST: u32 = CODE_LIMIT as u32;

const STRING_MOST: u32 = STRING_LIMIT as u32;

// No field is named, so each is 0.
#[tactic(auto, using(crate::proofs::KindSteps::kind_steps, crate::proofs::Chains::chain_steps))]
fn unused(e: Entry) -> bool
    ensures { result ≡ rest_nought none_named (record_of e).fields }
{
    e.a == 0 && e.b == 0 && e.c == 0 && e.d == 0 && e.e == 0
}

impl<'a> Table<'a> {
    // A link is 0, or leads up to a record of the kind.
    #[tactic(auto, using(crate::proofs::RuleSteps::rule_steps))]
    fn link_right(self, n: RecordNumber, to: RecordNumber, kind: u8) -> bool
        ensures { result ≡ field_right (image_of self.entry.bytes.now) n.0 (link (kind ∷ [])) to.0 0 }
    {
        to.0 == 0 || (leads_up(self.frame, n, to) && kind_at(self.bytes, self.frame, to) == kind)
    }

    // A link is 0, or leads up to an object or an item.
    #[tactic(auto, using(crate::proofs::RuleSteps::rule_steps))]
    fn value_link_right(self, n: RecordNumber, to: RecordNumber) -> bool
        ensures { result ≡ field_right (image_of self.entry.bytes.now) n.0 (link (object_kind ∷ items)) to.0 0 }
    {
        to.0 == 0 || (leads_up(self.frame, n, to) && is_value(kind_at(self.bytes, self.frame, to)))
    }

    // An object: its type, its code and its first attribute.
    #[tactic(auto, using(crate::proofs::KindSteps::kind_steps, crate::proofs::Chains::chain_steps))]
    fn object_right(self, n: RecordNumber, e: Entry) -> bool
        requires { e.kind ≡ 1 }
        ensures { result ≡ fields_kept (image_of self.entry.bytes.now) n.0 (record_of e) }
    {
        place_right(self.frame.pool, PoolPlace(e.a), e.b, 1, NAME_MOST)
            && place_right(self.frame.pool, PoolPlace(e.c), e.d, 0, CODE_MOST)
            && self.link_right(n, RecordNumber(e.e), ATTRIBUTE_KIND)
    }

    // An attribute: its name, its object or first item, and the next attribute.
    #[tactic(auto, using(crate::proofs::KindSteps::kind_steps, crate::proofs::Chains::chain_steps))]
    fn attribute_right(self, n: RecordNumber, e: Entry) -> bool
        requires { e.kind ≡ 2 }
        ensures { result ≡ fields_kept (image_of self.entry.bytes.now) n.0 (record_of e) }
    {
        place_right(self.frame.pool, PoolPlace(e.a), e.b, 1, NAME_MOST)
            && self.value_link_right(n, RecordNumber(e.c))
            && self.link_right(n, RecordNumber(e.d), ATTRIBUTE_KIND)
            && e.e == 0
    }

    // What follows an item's value: the next item, of the same kind, and nothing else.
    #[tactic(auto, using(crate::proofs::KindSteps::kind_steps, crate::proofs::Chains::chain_steps))]
    fn next_right(self, n: RecordNumber, e: Entry) -> bool
        ensures { result ≡ next_right (image_of self.entry.bytes.now) n.0 e }
    {
        self.link_right(n, RecordNumber(e.e), e.kind) && e.c == 0 && e.d == 0
    }

    // An integer item: its ends.
    #[tactic(auto, using(crate::proofs::KindSteps::kind_steps, crate::proofs::Chains::chain_steps))]
    fn integer_right(self, n: RecordNumber, e: Entry) -> bool
        requires { e.kind ≡ 4 }
        ensures { result ≡ fields_kept (image_of self.entry.bytes.now) n.0 (record_of e) }
    {
        integers_right(e.a, e.b) && self.next_right(n, e)
    }

    // A string item: its text.
    #[tactic(auto, using(crate::proofs::KindSteps::kind_steps, crate::proofs::Chains::chain_steps))]
    fn string_right(self, n: RecordNumber, e: Entry) -> bool
        requires { e.kind ≡ 5 }
        ensures { result ≡ fields_kept (image_of self.entry.bytes.now) n.0 (record_of e) }
    {
        place_right(self.frame.pool, PoolPlace(e.a), e.b, 0, STRING_MOST) && self.next_right(n, e)
    }

    // A date interval: its ends.
    #[tactic(auto, using(crate::proofs::KindSteps::kind_steps, crate::proofs::Chains::chain_steps))]
    fn interval_right(self, n: RecordNumber, e: Entry) -> bool
        requires { e.kind ≡ 7 }
        ensures { result ≡ fields_kept (image_of self.entry.bytes.now) n.0 (record_of e) }
    {
        dates_right(e.a, e.b) && self.next_right(n, e)
    }

    // The fields are as the kind asks. The kinds are told apart three at a time, so that this compiles to comparisons: a table of jumps costs more.
    #[tactic(auto, using(crate::proofs::KindSteps::kind_steps))]
    fn fields_right(self, n: RecordNumber, e: Entry) -> bool
        ensures { result ≡ fields_kept (image_of self.entry.bytes.now) n.0 (record_of e) }
    {
        let kind = e.kind;
        match kind {
            0 => unused(e),
            1 => self.object_right(n, e),
            2 => self.attribute_right(n, e),
            3..=5 => match kind {
                0..=3 => unused(e),
                4 => self.integer_right(n, e),
                5..=255 => self.string_right(n, e),
            },
            6..=255 => match kind {
                0..=6 => unused(e),
                7 => self.interval_right(n, e),
                8..=255 => unused(e),
            },
        }
    }

    // The record keeps the rules of its kind.
    #[tactic(auto, using(crate::proofs::KindSteps::kind_steps, crate::proofs::Chains::chain_steps))]
    pub fn rules_kept(self, n: RecordNumber, e: Entry) -> bool
        ensures { result ≡ (obeys (image_of self.entry.bytes.now) n.0 (record_of e) && clean (record_of e)) }
    {
        self.fields_right(n, e) && flag_right(e.kind, e.flag)
    }
}
