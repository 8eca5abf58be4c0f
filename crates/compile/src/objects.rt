// Objects and attributes, read and written; the levels left fall from object to object.
ghost use Rattle.std.specs.Prelude.{[], ◌+◌, ◌≤◌, length};
ghost use Rattle.meaning.specs.Counting.{object_pool, attribute_pool, value_pool};
ghost use Rattle.cadl_objects.specs.Clauses.Told.{value, attributes, object_from};
ghost use Rattle.compile_flatten.specs.Flatten.{object_table, attributes_table, value_table};
ghost use Rattle.compile_emission.specs.Clauses.Answers.{written};
ghost use Rattle.compile.specs.Clauses.Answers.{Stacked, TreeIs, EndIs, AttributeRoom, AttributeIs};

use cadl_objects::heads::{attribute_head, object_head};
use compile_emission::heads::{close_attribute, keep_name, open_object};
use compile_emission::leaves::write_leaf;
use compile_emission::spots::{AttributeEnd, NAMES_ROOM, Spot};
use lexis::tokens::{content_token_at, token_at};
use lexis::{CLOSE_BRACE, STAR, TYPE_NAME};
use refusals::Refusal;
use refusals::steps::expect;
use table::layout::{POOL_ROOM, RECORDS_ROOM};

// The `}` of an object behind its `*`.
fn close_object(s: &[u8], p: Spot, from: usize) -> Result<Spot, Refusal>
    requires { from ≤ length s.now }
    ensures { EndIs s.now p from result }
{
    let close = expect(s, CLOSE_BRACE, from)?;
    Ok(Spot {
        place: close.end,
        ..p
    })
}

// An object of at most so many levels from a spot on; so many names are on the stack.
#[cycle(read_attribute_read_attributes_read_object_read_value)]
pub fn read_object(
    s: &[u8],
    little: bool,
    levels: usize,
    p: Spot,
    top: usize,
    records: &mut [u8; RECORDS_ROOM],
    bytes: &mut [u8; POOL_ROOM],
    names: &mut [u32; NAMES_ROOM],
) -> Result<Spot, Refusal>
    requires { Stacked s.now p top }
    ensures { TreeIs top names.old names.new
        (written object_table object_pool little p records.old bytes.old
        (object_from s.now levels p.next p.place))
        records.new bytes.new result }
{
    let head = object_head(s, levels, p.next, p.place)?;
    let t = token_at(s, head.next);
    let any = t.sort == STAR;
    let q = open_object(s, little, p, head, any, records, bytes);
    if any {
        return close_object(s, q, t.end);
    }
    read_attributes(s, little, levels - 1, q, top, records, bytes, names)
}

// The attributes of an object and its `}`; the objects inside have at most so many levels.
#[cycle(read_attribute_read_attributes_read_object_read_value)]
fn read_attributes(
    s: &[u8],
    little: bool,
    levels: usize,
    p: Spot,
    first: usize,
    records: &mut [u8; RECORDS_ROOM],
    bytes: &mut [u8; POOL_ROOM],
    names: &mut [u32; NAMES_ROOM],
) -> Result<Spot, Refusal>
    requires { Stacked s.now p first }
    ensures { TreeIs first names.old names.new
        (written attributes_table attribute_pool little p records.old bytes.old
        (attributes s.now levels (length s.now + 1) [] p.next p.place))
        records.new bytes.new result }
{
    let mut q = p;
    let mut top = first;
    loop {
        match read_attribute(s, little, levels, q, first, top, records, bytes, names)? {
            AttributeEnd::Last(behind) => {
                return Ok(behind);
            }
            AttributeEnd::More(behind) => {
                q = behind;
                top += 1;
            }
        }
    }
}

// An attribute from a spot on; the names before it in its object are those from `first` on, up to `top`.
#[cycle(read_attribute_read_attributes_read_object_read_value)]
fn read_attribute(
    s: &[u8],
    little: bool,
    levels: usize,
    p: Spot,
    first: usize,
    top: usize,
    records: &mut [u8; RECORDS_ROOM],
    bytes: &mut [u8; POOL_ROOM],
    names: &mut [u32; NAMES_ROOM],
) -> Result<AttributeEnd, Refusal>
    requires { AttributeRoom s.now p first top names.old }
    ensures { AttributeIs s.now little levels p first top names.old records.old
        bytes.old names.new records.new bytes.new result }
{
    let head = attribute_head(s, names, first, top, p.next, p.place)?;
    let inner = keep_name(s, p, head, bytes, names, top);
    let q = read_value(s, little, levels, inner, top + 1, records, bytes, names)?;
    close_attribute(s, little, p, head, q, records)
}

// What stands between an attribute's braces: `*`, an object of at most so many levels, or a leaf.
#[cycle(read_attribute_read_attributes_read_object_read_value)]
fn read_value(
    s: &[u8],
    little: bool,
    levels: usize,
    p: Spot,
    top: usize,
    records: &mut [u8; RECORDS_ROOM],
    bytes: &mut [u8; POOL_ROOM],
    names: &mut [u32; NAMES_ROOM],
) -> Result<Spot, Refusal>
    requires { Stacked s.now p top }
    ensures { TreeIs top names.old names.new
        (written value_table value_pool little p records.old bytes.old
        (value s.now levels p.next p.place))
        records.new bytes.new result }
{
    let t = content_token_at(s, p.place);
    match t.sort {
        STAR => Ok(Spot { place: t.end, ..p }),
        TYPE_NAME => read_object(s, little, levels, p, top, records, bytes, names),
        _ => write_leaf(s, little, p, t, records, bytes),
    }
}
