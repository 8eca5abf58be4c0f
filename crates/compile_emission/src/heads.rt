// What is written of an object before its attributes, and of an attribute around its value.
ghost use Rattle.std.specs.Prelude.{◌≡◌, [], ◌∷◌, ◌+◌, ◌*◌, ◌-◌, ◌≤◌, ◌<◌};
ghost use Rattle.std.proofs.lemmas.List.Edits.{sets};
ghost use Rattle.lexis.specs.Runs.{part};
ghost use Rattle.refusals.specs.Limits.{record_limit};
ghost use Rattle.cadl_items.specs.Clauses.Spans.{with_item, Within};
ghost use Rattle.cadl_objects.specs.Clauses.Answers.{TypedPast};
ghost use Rattle.table.specs.Records.{record_size, encode};
ghost use Rattle.table.specs.Clauses.Answers.{record_of};
ghost use Rattle.compile_emission.specs.Clauses.Answers.{first_link, typed_row, ObjectPut, NameRoom, NameKept, named_row, CloseRoom, CloseIs, Room, RowRoom, link_below};

use crate::pool::{place_of, put_part};
use crate::rows::{link_below, put_row};
use crate::spots::{AttributeEnd, NAMES_ROOM, Spot};
use cadl_items::spans::narrow;
use cadl_objects::heads::{AttributeHead, ObjectHead};
use lexis::CLOSE_BRACE;
use lexis::tokens::token_at;
use refusals::Refusal;
use refusals::steps::expect;
use table::layout::{ATTRIBUTE_KIND, OBJECT_KIND, POOL_ROOM, RECORDS_ROOM};
use table::records::{Entry, plain};

// The number of an object's first attribute, 0 where any may follow.
fn first_link(any: bool, n: usize) -> u32
    requires { n < record_limit }
    ensures { result ≡ first_link any n }
{
    if any { 0 } else { narrow(n + 1) }
}

// An object's record by the places of its type and its code, with so many bytes in the pool before them.
fn object_entry(head: ObjectHead, pool: usize, first: u32) -> Entry
    requires row_room { RowRoom head.type_start head.type_end pool }
    requires row_room_2 { RowRoom head.code_start head.code_end (pool + (head.type_end - head.type_start)) }
    ensures { record_of result ≡ typed_row head pool first }
{
    let type_size = head.type_end - head.type_start;
    let code_size = head.code_end - head.code_start;
    Entry {
        a: place_of(head.type_start, head.type_end, pool),
        b: narrow(type_size),
        c: place_of(head.code_start, head.code_end, pool + type_size),
        d: narrow(code_size),
        e: first,
        ..plain(OBJECT_KIND, 0)
    }
}

// Writes an object's record and its names; the spot behind its opening brace. Where `any` holds it has no attributes.
pub fn open_object(
    s: &[u8],
    little: bool,
    p: Spot,
    head: ObjectHead,
    any: bool,
    records: &mut [u8; RECORDS_ROOM],
    bytes: &mut [u8; POOL_ROOM],
) -> Spot
    requires room { Room s.now p }
    requires typed_past { TypedPast s.now p.next p.place head.type_start head.type_end head.code_start head.code_end head.next }
    ensures { ObjectPut (part s.now head.type_start head.type_end)
        (part s.now head.code_start head.code_end) little p head.next any records.old bytes.old
        records.new bytes.new result }
{
    let first = first_link(any, p.next);
    let entry = object_entry(head, p.pool, first);
    put_row(records, little, p.next, entry);
    let middle = put_part(s, head.type_start, head.type_end, bytes, p.pool);
    let pool = put_part(s, head.code_start, head.code_end, bytes, middle);
    Spot {
        place: head.next,
        next: p.next + 1,
        pool,
    }
}

// Puts a name's two places on the stack.
fn push(names: &mut [u32; NAMES_ROOM], top: usize, start: u32, end: u32)
    requires { top < record_limit }
    ensures { names.new ≡ with_item names.old top start end }
{
    names[2 * top] = start;
    names[2 * top + 1] = end;
}

// Writes an attribute's name to the pool and to the stack; the spot behind its opening brace.
pub fn keep_name(
    s: &[u8],
    p: Spot,
    head: AttributeHead,
    bytes: &mut [u8; POOL_ROOM],
    names: &mut [u32; NAMES_ROOM],
    top: usize,
) -> Spot
    requires { NameRoom s.now p head.name_start head.name_end top }
    ensures { NameKept (part s.now head.name_start head.name_end) p head.next head.name_start head.name_end top
        bytes.old names.old bytes.new names.new result }
{
    push(names, top, narrow(head.name_start), narrow(head.name_end));
    let pool = put_part(s, head.name_start, head.name_end, bytes, p.pool);
    Spot {
        place: head.next,
        next: p.next + 1,
        pool,
    }
}

// An attribute's record, by its existence, the places of its name, and the links to its value and to the next attribute.
fn attribute_entry(head: AttributeHead, pool: usize, value: u32, next: u32) -> Entry
    requires { RowRoom head.name_start head.name_end pool }
    ensures { record_of result ≡ named_row head pool value next }
{
    Entry {
        a: place_of(head.name_start, head.name_end, pool),
        b: narrow(head.name_end - head.name_start),
        c: value,
        d: next,
        ..plain(ATTRIBUTE_KIND, head.existence)
    }
}

// Writes the record of an attribute whose value ends before record `end`, with the number of the next attribute, or 0.
fn put_attribute(
    records: &mut [u8; RECORDS_ROOM],
    little: bool,
    p: Spot,
    head: AttributeHead,
    end: usize,
    next: usize,
)
    requires row_room { RowRoom head.name_start head.name_end p.pool }
    requires next_lt_record_limit { (p.next < record_limit) × (next ≤ record_limit) }
    ensures { records.new
        ≡ sets records.old (record_size * p.next)
        (encode little (named_row head p.pool (link_below (p.next + 1) end) next)) }
{
    let value = link_below(p.next + 1, end);
    let entry = attribute_entry(head, p.pool, value, narrow(next));
    put_row(records, little, p.next, entry);
}

// The `}` of an attribute behind its value, and its record, once the token behind is seen.
pub fn close_attribute(
    s: &[u8],
    little: bool,
    p: Spot,
    head: AttributeHead,
    q: Spot,
    records: &mut [u8; RECORDS_ROOM],
) -> Result<AttributeEnd, Refusal>
    requires { CloseRoom s.now p head.name_start head.name_end q }
    ensures { CloseIs s.now little p head.existence (part s.now head.name_start head.name_end) q records.old
        records.new result }
{
    let close = expect(s, CLOSE_BRACE, q.place)?;
    let t = token_at(s, close.end);
    if t.sort == CLOSE_BRACE {
        put_attribute(records, little, p, head, q.next, 0);
        return Ok(AttributeEnd::Last(Spot { place: t.end, ..q }));
    }
    put_attribute(records, little, p, head, q.next, q.next);
    Ok(AttributeEnd::More(Spot {
        place: close.end,
        ..q
    }))
}
