// Two tables that fit together, written as one.
ghost use Rattle.std.specs.Prelude.{◌≡◌, ◌++◌, ◌+◌, ◌*◌, ◌-◌, ◌≤◌, length};
ghost use Rattle.std.specs.Prelude.{None};
ghost use Rattle.std.proofs.lemmas.List.Edits.{sets};
ghost use Rattle.table.specs.Records.{record_size, encode, encodes, header, header_of, field, image_of, bytes_of};
ghost use Rattle.table.specs.Check.{table_fault};
ghost use Rattle.table.specs.Clauses.Answers.{Opened};
ghost use Rattle.table_merge.specs.Joining.{merged};
ghost use Rattle.table_merge.specs.Clauses.Answers.{header_with, Joinable, joined_length};

use crate::copying::copy_records;
use table::copying::copy_bytes;
use table::layout::HEADER_KIND;
use table::records::{Entry, Frame, PoolPlace, PoolShift, RecordShift, frame_of, plain, read};
use table::writing::put_record;

// The counts of a table that passes the check.
#[tactic(auto, using(table::proofs::NameSteps::sound_long))]
pub fn open_table(table: &[u8]) -> Frame
    requires { table_fault table.now ≡ None }
    ensures { Opened table.now result }
{
    frame_of(table)
}

// The header, with the first table's root.
#[tactic(auto, using(crate::proofs::JoinSteps::join_steps))]
fn write_header(first: &[u8], count: u32, pool: u32, little: bool, out: &mut [u8])
    requires { (record_size ≤ length first.now) × (record_size ≤ length out.old) }
    ensures { out.new
        ≡ sets out.old 0 (encode little (header_with count pool (field (header first.now) 2))) }
{
    let h = read(first, 0);
    let merged = Entry {
        a: count,
        b: pool,
        c: h.c,
        ..plain(HEADER_KIND, 0)
    };
    put_record(out, 0, little, merged);
}

// The header and the records: the first table's as they are, the second's moved.
fn write_records(first: &[u8], second: &[u8], x: Frame, y: Frame, little: bool, out: &mut [u8])
    requires joinable { Joinable first.now second.now x y }
    requires y_in_bounds { joined_length x y ≤ length out.old }
    ensures { out.new
        ≡ sets out.old 0
        (encode little (header_of (merged (image_of first.now) (image_of second.now)))
        ++ encodes little (merged (image_of first.now) (image_of second.now)).records) }
{
    let records = x.count - 1;
    write_header(first, records + y.count, x.pool + y.pool, little, out);
    copy_records(first, x.count, RecordShift(0), PoolShift(0), little, out);
    copy_records(
        second,
        y.count,
        RecordShift(records),
        PoolShift(x.pool),
        little,
        out,
    );
}

// The pools, one behind the other.
#[tactic(auto, using(crate::proofs::JoinSteps::join_steps))]
fn write_pools(first: &[u8], second: &[u8], x: Frame, y: Frame, out: &mut [u8])
    requires joinable { Joinable first.now second.now x y }
    requires y_in_bounds { joined_length x y ≤ length out.old }
    ensures { out.new
        ≡ sets out.old (record_size * (x.count - 1 + y.count))
        (merged (image_of first.now) (image_of second.now)).pool }
{
    let count = x.count - 1 + y.count;
    copy_bytes(
        first,
        PoolPlace(0).start(x.count),
        out,
        PoolPlace(0).start(count),
    );
    copy_bytes(
        second,
        PoolPlace(0).start(y.count),
        out,
        PoolPlace(x.pool).start(count),
    );
}

// The joined table.
pub fn write_joined(first: &[u8], second: &[u8], x: Frame, y: Frame, little: bool, out: &mut [u8])
    requires joinable { Joinable first.now second.now x y }
    requires y_in_bounds { joined_length x y ≤ length out.old }
    ensures { out.new
        ≡ sets out.old 0
        (bytes_of little (merged (image_of first.now) (image_of second.now))) }
{
    write_records(first, second, x, y, little, out);
    write_pools(first, second, x, y, out);
}
