// The items of a leaf, from the scratch to their records.
ghost use Rattle.std.specs.Prelude.{◌≡◌, [], ◌∷◌, ◌+◌, ◌*◌, ◌<◌};
ghost use Rattle.std.proofs.lemmas.List.Edits.{sets};
ghost use Rattle.refusals.specs.Limits.{record_limit, item_limit};
ghost use Rattle.cadl_items.specs.Clauses.Spans.{first_of, second_of, span_at};
ghost use Rattle.cadl_items.specs.Clauses.Answers.{items_from, range_at, range_sort_of};
ghost use Rattle.meaning.specs.Sorts.{range_row, text_kind};
ghost use Rattle.table.specs.Records.{record_size, encode, make};
ghost use Rattle.table.specs.Clauses.Answers.{record_of};
ghost use Rattle.compile_flatten.specs.Flatten.{range_records};
ghost use Rattle.compile_emission.specs.Clauses.Answers.{link_below, Puts, ListWritingRoom, TextsRoom, TextFits, TextPut, TextsPut};

use crate::pool::{place_of, put_part};
use crate::rows::{link_below, put_row, range_entry};
use crate::spots::Spot;
use cadl_items::leaves::RangeSort;
use cadl_items::spans::{SCRATCH_ROOM, narrow, place};
use table::layout::{POOL_ROOM, RECORDS_ROOM, STRING_KIND};
use table::records::{Entry, plain};

// The record of a string by its place and length in the pool, and the number of the next one's.
fn string_entry(place: u32, size: u32, next: u32) -> Entry
    ensures { record_of result ≡ make text_kind 0 (place ∷ size ∷ 0 ∷ 0 ∷ next ∷ []) }
{
    Entry {
        a: place,
        b: size,
        e: next,
        ..plain(STRING_KIND, 0)
    }
}

// A leaf of one record.
pub fn put_single(
    records: &mut [u8; RECORDS_ROOM],
    little: bool,
    p: Spot,
    kind: u8,
    flag: u8,
    place: usize,
) -> Spot
    requires { p.next < record_limit }
    ensures { Puts little p place (make kind flag [] ∷ []) 0 records.old records.new result }
{
    put_row(records, little, p.next, plain(kind, flag));
    Spot {
        place,
        next: p.next + 1,
        ..p
    }
}

// The record of item i of the scratch, a closed pair, with a number; the last item's is below `end`.
fn put_range(
    records: &mut [u8; RECORDS_ROOM],
    little: bool,
    sort: RangeSort,
    scratch: &[u32; SCRATCH_ROOM],
    i: usize,
    n: usize,
    end: usize,
)
    requires { (i < item_limit) × (n < record_limit) }
    ensures { records.new
        ≡ sets records.old (record_size * n)
        (encode little
        (make (range_row (range_sort_of sort)).kind 0
        ((range_row (range_sort_of sort)).end (first_of scratch.now i)
        ∷ (range_row (range_sort_of sort)).end (second_of scratch.now i) ∷ 0 ∷ 0 ∷ link_below (n + 1) end
        ∷ []))) }
{
    let next = link_below(n + 1, end);
    let entry = range_entry(sort, scratch[2 * i], scratch[2 * i + 1], next);
    put_row(records, little, n, entry);
}

// The records of a list of closed pairs, whose ends stand in the scratch.
pub fn put_ranges(
    records: &mut [u8; RECORDS_ROOM],
    little: bool,
    p: Spot,
    sort: RangeSort,
    scratch: &[u32; SCRATCH_ROOM],
    count: usize,
    place: usize,
) -> Spot
    requires { ListWritingRoom p count }
    ensures { Puts little p place
        (range_records (range_sort_of sort) (items_from (range_at scratch.now) p.next 0 count)) 0
        records.old records.new result }
{
    let end = p.next + count;
    for i in 0..count {
        put_range(records, little, sort, scratch, i, p.next + i, end);
    }
    Spot {
        place,
        next: end,
        ..p
    }
}

// The record with a number and the bytes of a string, item i of the scratch; the place behind them in the pool.
fn put_string(
    s: &[u8],
    scratch: &[u32; SCRATCH_ROOM],
    i: usize,
    little: bool,
    n: usize,
    end: usize,
    records: &mut [u8; RECORDS_ROOM],
    bytes: &mut [u8; POOL_ROOM],
    at: usize,
) -> usize
    requires { TextFits s.now scratch.now i n at }
    ensures { TextPut (span_at s.now scratch.now i) little n end at records.old
        bytes.old records.new bytes.new result }
{
    let start = place(scratch[2 * i]);
    let stop = place(scratch[2 * i + 1]);
    let place = place_of(start, stop, at);
    let size = narrow(stop - start);
    let entry = string_entry(place, size, link_below(n + 1, end));
    put_row(records, little, n, entry);
    put_part(s, start, stop, bytes, at)
}

// The records and the bytes of strings, whose places in the text stand in the scratch.
pub fn put_strings(
    s: &[u8],
    records: &mut [u8; RECORDS_ROOM],
    bytes: &mut [u8; POOL_ROOM],
    little: bool,
    p: Spot,
    scratch: &[u32; SCRATCH_ROOM],
    count: usize,
    place: usize,
) -> Spot
    requires { TextsRoom s.now p scratch.now count }
    ensures { TextsPut s.now little p scratch.now count place records.old
        bytes.old records.new bytes.new result }
{
    let end = p.next + count;
    let mut to = p.pool;
    for i in 0..count {
        to = put_string(s, scratch, i, little, p.next + i, end, records, bytes, to);
    }
    Spot {
        place,
        next: end,
        pool: to,
    }
}
