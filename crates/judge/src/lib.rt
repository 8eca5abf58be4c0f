// Judging a data text by a table. The definitions stand in specs/.
#![tactic(auto)]

mod walk;

ghost use Rattle.std.specs.Prelude.{◌≡◌};
ghost use Rattle.std.specs.Prelude.{None};
ghost use Rattle.dadl.specs.Clauses.Answers.{TapeRoom};
ghost use Rattle.table.specs.Records.{image_of};
ghost use Rattle.table.specs.Check.{kind_at, table_fault};
ghost use Rattle.table.specs.Trees.{object_at};
ghost use Rattle.judge.specs.Judge.{under_root, judge_answer};
ghost use Rattle.judge_admission.specs.Clauses.Items.{image_from, TableGood};
ghost use Rattle.judge.specs.declared.Denial.TheVariants.{Refused, Failed};
ghost use Rattle.judge.specs.Clauses.Answers.{answer_of};
ghost use Rattle.judge.specs.Clauses.Walk.{Roomy};

use crate::walk::judge_block;
use dadl::read_data;
use dadl::rows::{MEMBER_SIZE, ROW_SIZE};
use judge_attributes::Failure;
use judge_tape::inputs::Inputs;
use judge_tape::members::{Block, type_at};
use refusals::limits::{LEVEL_LIMIT, RECORD_LIMIT, TEXT_LIMIT};
use refusals::{Cause, Refusal};
use table::check::check;
use table::layout::OBJECT_KIND;
use table::records::{RecordNumber, frame_of, kind_at};

// So many attributes are visited without a memo: more than a table has, each of which is visited once at most where no two
// links lead to one record.
const VISITS: u32 = RECORD_LIMIT as u32;

// The longest text that the short tape has room for.
const SHORT_TEXT: usize = 1004;

// Numbers of the tape of a text: a row for each shortest member that it has room for, and five more.
const SHORT_TAPE: usize = ROW_SIZE * (SHORT_TEXT / MEMBER_SIZE + 5);

const LONG_TAPE: usize = ROW_SIZE * (TEXT_LIMIT / MEMBER_SIZE + 5);

// Why a text isn't valid: text, table or root are refused, or a reason with the record and the data place that fail.
#[derive(Clone, Copy)]
pub enum Denial {
    Refused(Refusal),
    Failed(Failure),
}

impl From<Refusal> for Denial {
    ghost from_gives = { λ refusal denial. denial ≡ Refused refusal };

    // A refusal of the table, the root or the text.
    fn from(refusal: Refusal) -> Denial {
        Denial::Refused(refusal)
    }
}

impl From<Failure> for Denial {
    ghost from_gives = { λ failure denial. denial ≡ Failed failure };

    // A failure of the text, which was read and judged.
    fn from(failure: Failure) -> Denial {
        Denial::Failed(failure)
    }
}

// A data text by the object with a number, on a tape that has room for it.
fn judge_on(
    records: &[u8],
    pool: &[u8],
    root: RecordNumber,
    text: &[u8],
    tape: &mut [u16],
) -> Result<(), Denial>
    requires table_good { TableGood records.now pool.now }
    requires root_value { kind_at (image_from records.now pool.now) root.0 ≡ 1 }
    requires tape_room { TapeRoom text.now tape.old }
    ensures { answer_of result
        ≡ under_root root.0 text.now
        (object_at (image_from records.now pool.now) root.0) }
{
    let data = read_data(text, LEVEL_LIMIT, tape)?;
    let block = Block {
        place: data.place,
        type_name: type_at(data.type_start, data.type_end),
        first: 0,
        inside: data.rows,
    };
    let mut memo = [0u8; 0];
    let mut visits = VISITS;
    let inputs = Inputs {
        records,
        pool,
        text,
        tape,
        rows: data.rows,
    };
    judge_block(&inputs, &mut memo, &mut visits, LEVEL_LIMIT, root, block)?;
    Ok(())
}

// The same on a new tape of so many numbers.
fn judge_in<const ROOM: usize>(
    records: &[u8],
    pool: &[u8],
    root: RecordNumber,
    text: &[u8],
) -> Result<(), Denial>
    requires table_good { TableGood records.now pool.now }
    requires root_value { kind_at (image_from records.now pool.now) root.0 ≡ 1 }
    requires tape_room { Roomy text.now ROOM }
    ensures { answer_of result
        ≡ under_root root.0 text.now
        (object_at (image_from records.now pool.now) root.0) }
{
    let mut tape = [0u16; ROOM];
    judge_on(records, pool, root, text, &mut tape)
}

// A data text by the object with a number, in a table that passes the check.
fn judge_checked(table: &[u8], root: RecordNumber, text: &[u8]) -> Result<(), Denial>
    requires { table_fault table.now ≡ None }
    ensures { answer_of result
        ≡ under_root root.0 text.now (object_at (image_of table.now) root.0) }
{
    let frame = frame_of(table);
    if kind_at(table, frame, root) != OBJECT_KIND {
        return Err(Denial::Refused(Cause::NotAnObject.at(root.0 as usize)));
    }
    let end = RecordNumber(frame.count).start();
    let records = &table[0..end];
    let pool = &table[end..];
    if text.len() <= SHORT_TEXT {
        judge_in::<SHORT_TAPE>(records, pool, root, text)
    } else {
        judge_in::<LONG_TAPE>(records, pool, root, text)
    }
}

// A data text by the object of a table with a number: the table is checked first, then the root, then the text is read,
// and then judged.
pub fn judge(table: &[u8], root: u32, text: &[u8]) -> Result<(), Denial>
    ensures { answer_of result ≡ judge_answer table.now root text.now }
{
    check(table)?;
    judge_checked(table, RecordNumber(root), text)
}
