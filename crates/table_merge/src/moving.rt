// A record, moved: its links by one shift, its places in the pool by the other.
ghost use Rattle.std.specs.Prelude.{◌≡◌, ◌<◌, ◌^◌};
ghost use Rattle.meaning.specs.Constraints.{integers};
ghost use Rattle.table.specs.Rows.{object, attribute, text, range, shape_of};
ghost use Rattle.table.specs.Clauses.Answers.{record_of};
ghost use Rattle.table_merge.specs.Joining.{moved};
ghost use Rattle.table_merge.specs.Clauses.Answers.{shifts, moved_link, moved_place, moved_as, Movable};

use table::records::{Entry, PoolPlace, PoolShift, RecordNumber, RecordShift};

// A link, moved; 0 leads nowhere and stays.
#[tactic(auto, using(crate::proofs::MoveSteps::choice_steps))]
fn moved_link(link: RecordNumber, by: RecordShift) -> RecordNumber
    requires { moved_link by.0 link.0 < 2 ^ 32 }
    ensures { result.0 ≡ moved_link by.0 link.0 }
{
    if link.0 == 0 {
        return link;
    }
    link.moved(by)
}

// A place of so many bytes, moved; a place of none stays.
#[tactic(auto, using(crate::proofs::MoveSteps::choice_steps))]
fn moved_place(place: PoolPlace, length: u32, by: PoolShift) -> PoolPlace
    requires { moved_place by.0 place.0 length < 2 ^ 32 }
    ensures { result.0 ≡ moved_place by.0 place.0 length }
{
    if length == 0 {
        return place;
    }
    place.moved(by)
}

// An object, moved: type, code and first attribute.
#[tactic(auto, using(crate::proofs::MoveSteps::move_steps))]
fn moved_object(r: Entry, records: RecordShift, pool: PoolShift) -> Entry
    requires { Movable (shifts records.0 pool.0) object (record_of r) }
    ensures { record_of result ≡ moved_as (shifts records.0 pool.0) object (record_of r) }
{
    let name = moved_place(PoolPlace(r.a), r.b, pool);
    let code = moved_place(PoolPlace(r.c), r.d, pool);
    let first = moved_link(RecordNumber(r.e), records);
    Entry {
        a: name.0,
        c: code.0,
        e: first.0,
        ..r
    }
}

// An attribute, moved: name, value and next attribute.
#[tactic(auto, using(crate::proofs::MoveSteps::move_steps))]
fn moved_attribute(r: Entry, records: RecordShift, pool: PoolShift) -> Entry
    requires { Movable (shifts records.0 pool.0) attribute (record_of r) }
    ensures { record_of result ≡ moved_as (shifts records.0 pool.0) attribute (record_of r) }
{
    let name = moved_place(PoolPlace(r.a), r.b, pool);
    let value = moved_link(RecordNumber(r.c), records);
    let next = moved_link(RecordNumber(r.d), records);
    Entry {
        a: name.0,
        c: value.0,
        d: next.0,
        ..r
    }
}

// An item of numbers, moved: the next item.
#[tactic(auto, using(crate::proofs::MoveSteps::move_steps))]
fn moved_item(r: Entry, records: RecordShift) -> Entry
    requires { Movable (shifts records.0 0) (range integers) (record_of r) }
    ensures { record_of result ≡ moved_as (shifts records.0 0) (range integers) (record_of r) }
{
    let next = moved_link(RecordNumber(r.e), records);
    Entry { e: next.0, ..r }
}

// A string, moved: its bytes and the next item.
#[tactic(auto, using(crate::proofs::MoveSteps::move_steps))]
fn moved_string(r: Entry, records: RecordShift, pool: PoolShift) -> Entry
    requires { Movable (shifts records.0 pool.0) text (record_of r) }
    ensures { record_of result ≡ moved_as (shifts records.0 pool.0) text (record_of r) }
{
    let text = moved_place(PoolPlace(r.a), r.b, pool);
    let next = moved_link(RecordNumber(r.e), records);
    Entry {
        a: text.0,
        e: next.0,
        ..r
    }
}

// A record, moved, by what its kind's fields are. The kinds are told apart three at a time, so that this compiles to comparisons.
#[tactic(auto, using(crate::proofs::MoveSteps::kind_steps))]
pub fn moved_record(r: Entry, records: RecordShift, pool: PoolShift) -> Entry
    requires { Movable (shifts records.0 pool.0) (shape_of r.kind) (record_of r) }
    ensures { record_of result ≡ moved (shifts records.0 pool.0) (record_of r) }
{
    let kind = r.kind;
    match kind {
        0 => r,
        1 => moved_object(r, records, pool),
        2 => moved_attribute(r, records, pool),
        3..=5 => match kind {
            0..=3 => r,
            4 => moved_item(r, records),
            5..=255 => moved_string(r, records, pool),
        },
        6..=255 => match kind {
            0..=6 => r,
            7 => moved_item(r, records),
            8..=255 => r,
        },
    }
}
