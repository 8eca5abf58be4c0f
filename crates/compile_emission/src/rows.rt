// Records, put where their numbers stand.
ghost use Rattle.std.specs.Prelude.{◌≡◌, [], ◌∷◌, ◌*◌, ◌≤◌, ◌<◌};
ghost use Rattle.std.proofs.lemmas.List.Edits.{sets};
ghost use Rattle.refusals.specs.Limits.{record_limit};
ghost use Rattle.table.specs.Records.{record_size, encode, make};
ghost use Rattle.table.specs.Clauses.Answers.{record_of};
ghost use Rattle.compile_emission.specs.Clauses.Answers.{link_below};
ghost use Rattle.meaning.specs.Sorts.{range_row};
ghost use Rattle.cadl_items.specs.Clauses.Answers.{range_sort_of};

use cadl_items::leaves::RangeSort;
use cadl_items::spans::narrow;
use table::layout::{DATE_KIND, INTEGER_KIND, RECORD_SIZE, RECORDS_ROOM};
use table::records::{Entry, plain};
use table::writing::put_record;
use values::integers::twos_complement;

// The number of a record as a link, where it is below another; else 0.
pub fn link_below(n: usize, end: usize) -> u32
    requires { n ≤ record_limit }
    ensures { result ≡ link_below n end }
{
    if n < end { narrow(n) } else { 0 }
}

// Puts the record with a number.
pub fn put_row(records: &mut [u8; RECORDS_ROOM], little: bool, n: usize, entry: Entry)
    requires { n < record_limit }
    ensures { records.new
        ≡ sets records.old (record_size * n) (encode little (record_of entry)) }
{
    put_record(records, RECORD_SIZE * n, little, entry);
}

// The kind of the records of a list of closed pairs.
fn range_kind(sort: RangeSort) -> u8
    ensures { result ≡ (range_row (range_sort_of sort)).kind }
{
    match sort {
        RangeSort::Integers => INTEGER_KIND,
        RangeSort::Dates => DATE_KIND,
    }
}

// An end of a closed pair, as its record has it.
fn end_of(sort: RangeSort, x: u32) -> u32
    ensures { result ≡ (range_row (range_sort_of sort)).end x }
{
    match sort {
        RangeSort::Integers => twos_complement(x),
        RangeSort::Dates => x,
    }
}

// The record of a closed pair, and the number of the next item's.
pub fn range_entry(sort: RangeSort, low: u32, high: u32, next: u32) -> Entry
    ensures { record_of result
        ≡ make (range_row (range_sort_of sort)).kind 0
        ((range_row (range_sort_of sort)).end low ∷ (range_row (range_sort_of sort)).end high ∷ 0 ∷ 0 ∷ next ∷ []) }
{
    Entry {
        a: end_of(sort, low),
        b: end_of(sort, high),
        e: next,
        ..plain(range_kind(sort), 0)
    }
}
