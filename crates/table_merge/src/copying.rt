// Records and pools, copied from one table into another.
ghost use Rattle.std.specs.Prelude.{◌≡◌, map, ◌+◌, ◌*◌, ◌-◌, ◌≤◌, drop};
ghost use Rattle.std.proofs.lemmas.List.Edits.{sets};
ghost use Rattle.table.specs.Records.{record_size, encode, decodes, encodes, record_in};
ghost use Rattle.table_merge.specs.Joining.{moved};
ghost use Rattle.table_merge.specs.Clauses.Answers.{shifts, Copying};

use crate::moving::moved_record;
use table::records::{PoolShift, RecordNumber, RecordShift, read};
use table::writing::put_record;

// The record with a number, moved, and written where its moved number stands.
#[tactic(auto, using(crate::proofs::CopySteps::copy_steps))]
fn copy_record(
    table: &[u8],
    n: RecordNumber,
    records: RecordShift,
    pool: PoolShift,
    little: bool,
    out: &mut [u8],
)
    requires le_n { 1 ≤ n.0 }
    requires copying { Copying table.now (n.0 + 1) (shifts records.0 pool.0) out.old }
    ensures { out.new
        ≡ sets out.old (record_size * (records.0 + n.0))
        (encode little (moved (shifts records.0 pool.0) (record_in table.now n.0))) }
{
    let r = moved_record(read(table, n.start()), records, pool);
    put_record(out, n.moved(records).start(), little, r);
}

// The records of a table below a count, from number 1 on, moved.
#[tactic(auto, using(crate::proofs::CopySteps::copy_steps))]
pub fn copy_records(
    table: &[u8],
    count: u32,
    records: RecordShift,
    pool: PoolShift,
    little: bool,
    out: &mut [u8],
)
    requires { Copying table.now count (shifts records.0 pool.0) out.old }
    ensures { out.new
        ≡ sets out.old (record_size * (records.0 + 1))
        (encodes little
        (map (moved (shifts records.0 pool.0)) (decodes (count - 1) (drop record_size table.now)))) }
{
    for n in 1..count {
        copy_record(table, RecordNumber(n), records, pool, little, out);
    }
}
