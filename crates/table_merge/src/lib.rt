// Merging two tables, and lists of merges. The definitions stand in specs/.
#![tactic(auto)]

mod copying;
mod joining;
mod moving;

ghost use Rattle.std.specs.Prelude.{◌≡◌, length};
ghost use Rattle.std.specs.Prelude.{None, option_map as map};
ghost use Rattle.refusals.specs.Outcomes.{answered, write};
ghost use Rattle.table.specs.Records.{image_of};
ghost use Rattle.table.specs.Check.{table_fault};
ghost use Rattle.table_merge.specs.Merge.{request, of_table, neither, join, merge_answer};
ghost use Rattle.table_merge.specs.TableNumbers.{table_number};
ghost use Rattle.table_merge.specs.Clauses.Answers.{refusal_of, fault_in, answer_of};

use crate::joining::{open_table, write_joined};
use refusals::{Cause, Refusal};
use table::check::check;
use table::records::{POOL_MOST, PoolPlace, PoolShift, RECORD_MOST, RecordShift};

// What a merge that is done tells: how long the table written is, and how far the second table was moved.
#[derive(Clone, Copy)]
pub struct Merged {
    pub length: usize,
    pub records: RecordShift,
    pub pool: PoolShift,
}

// Which of two tables is at fault, where one is.
#[derive(Clone, Copy)]
pub enum AtFault {
    Neither,
    First,
    Second,
}

impl From<AtFault> for u8 {
    ghost from_gives = { λ at n. n ≡ table_number at };

    // The number of the table: 0 where neither is at fault.
    fn from(at: AtFault) -> u8 {
        match at {
            AtFault::Neither => 0,
            AtFault::First => 1,
            AtFault::Second => 2,
        }
    }
}

// Why two tables are not merged, and which of them is at fault.
#[derive(Clone, Copy)]
pub struct MergeRefusal {
    pub table: AtFault,
    pub refusal: Refusal,
}

// A refusal that is neither table's own.
fn refuse(cause: Cause, place: usize) -> MergeRefusal
    ensures { refusal_of result ≡ neither cause place }
{
    MergeRefusal {
        table: AtFault::Neither,
        refusal: cause.at(place),
    }
}

// Two tables that pass the check, joined where the sizes allow it.
fn join_tables(
    first: &[u8],
    second: &[u8],
    little: bool,
    out: &mut [u8],
) -> Result<Merged, MergeRefusal>
    requires first_value { table_fault first.now ≡ None }
    requires second_value { table_fault second.now ≡ None }
    ensures { answered (answer_of result) out.new
        ≡ write (join (image_of first.now) (image_of second.now) little (length out.old))
        out.old }
{
    let x = open_table(first);
    let y = open_table(second);
    let records = x.count - 1;
    let count = records + y.count;
    if RECORD_MOST < count {
        return Err(refuse(Cause::TooManyRecords, 0));
    }
    let pool = x.pool + y.pool;
    if POOL_MOST < pool {
        return Err(refuse(Cause::PoolTooLarge, 0));
    }
    let length = PoolPlace(pool).start(count);
    if out.len() < length {
        return Err(refuse(Cause::OutputTooShort, length));
    }
    write_joined(first, second, x, y, little, out);
    Ok(Merged {
        length,
        records: RecordShift(records),
        pool: PoolShift(x.pool),
    })
}

// Refuses a table that does not pass the check, and names it.
fn check_table(table: &[u8], at: AtFault) -> Result<(), MergeRefusal>
    ensures { fault_in result ≡ map (of_table (table_number at)) (table_fault table.now) }
{
    match check(table) {
        Ok(()) => Ok(()),
        Err(refusal) => Err(MergeRefusal { table: at, refusal }),
    }
}

// Two tables, merged into one whose numbers are in the order asked. The two may be the same bytes.
#[tactic(auto, using(crate::proofs::MergeSteps::merge_steps))]
pub fn merge(
    first: &[u8],
    second: &[u8],
    little: bool,
    out: &mut [u8],
) -> Result<Merged, MergeRefusal>
    ensures { answered (answer_of result) out.new
        ≡ merge_answer (request first.now second.now little) out.old }
{
    check_table(first, AtFault::First)?;
    check_table(second, AtFault::Second)?;
    join_tables(first, second, little, out)
}
