// Attributes: what an attribute tells of a block without judging a block inside it.
#![tactic(auto)]

ghost use Rattle.std.specs.Prelude.{◌≡◌, ◌+◌, ◌*◌, ◌≤◌, ◌<◌, length};
ghost use Rattle.meaning.specs.Verdicts.{fails};
ghost use Rattle.meaning.specs.Judging.{verdict_of};
ghost use Rattle.dadl.specs.Clauses.Tape.{row_size};
ghost use Rattle.dadl.specs.Clauses.Rows.{row_at};
ghost use Rattle.judge_admission.specs.Clauses.Items.{image_from, ItemsGood};
ghost use Rattle.judge_admission.specs.Clauses.Answers.{finding_of};
ghost use Rattle.judge_attributes.specs.Reasons.{number_of};
ghost use Rattle.judge_attributes.specs.Clauses.Answers.{failed, verdict_in, leaf_verdict};
ghost use Rattle.judge_tape.specs.Clauses.Rows.{LeafRow, block_on, Begins};
ghost use Rattle.judge_attributes.specs.Clauses.Attributes.{ValueLink, ValueIs, AttributeAt, AttributeAnswerIs};
ghost use Rattle.judge_tape.specs.Clauses.Memo.{MemoGood};

use judge_admission::{Admission, admit, kind_of, name_of};
use judge_tape::inputs::Inputs;
use judge_tape::members::{Block, find_member, number, type_at};
use judge_tape::memo::is_known;
use meaning::{PROHIBITED, REQUIRED};
use table::layout::OBJECT_KIND;
use table::records::{Entry, RecordNumber};

// Why a text is not valid.
#[derive(Clone, Copy)]
pub enum Reason {
    Unsuited,
    TypeDiffers,
    Missing,
    Present,
    NotAdmitted,
}

impl From<Reason> for u8 {
    ghost from_gives = { λ reason n. n ≡ number_of reason };

    // Document 01's number of a reason.
    fn from(reason: Reason) -> u8 {
        match reason {
            Reason::Unsuited => 20,
            Reason::TypeDiffers => 21,
            Reason::Missing => 22,
            Reason::Present => 23,
            Reason::NotAdmitted => 24,
        }
    }
}

// A failure: a reason, with the record and the data place that fail.
#[derive(Clone, Copy)]
pub struct Failure {
    pub reason: Reason,
    pub record: RecordNumber,
    pub place: usize,
}

impl Reason {
    // The failure for this reason, at a record and a data place.
    pub fn at(self, record: RecordNumber, place: usize) -> Failure
        ensures { failed result ≡ fails (number_of self) «record».0 place }
    {
        Failure {
            reason: self,
            record,
            place,
        }
    }
}

// A verdict: valid, or the first failure.
pub type Verdict = Result<(), Failure>;

// A block inside another that is still to be judged, by an object.
#[derive(Clone, Copy)]
pub struct Nested {
    pub object: RecordNumber,
    pub block: Block,
}

// What an admission tells, at the first item's record.
fn told(a: Admission, first: RecordNumber, place: usize) -> Verdict
    ensures { verdict_in result ≡ verdict_of first.0 place (finding_of a) }
{
    match a {
        Admission::Unsuited => Err(Reason::Unsuited.at(first, place)),
        Admission::Refuted => Err(Reason::NotAdmitted.at(first, place)),
        Admission::Admitted => Ok(()),
    }
}

// The string or word of a row, by the items from a record on.
#[tactic(auto, using(crate::proofs::AttributeSteps::value_told, judge_tape::proofs::MemberSteps::value_order, judge_tape::proofs::MemberSteps::value_ends))]
fn judge_items(inputs: &Inputs, first: RecordNumber, row: usize) -> Verdict
    requires items_good { ItemsGood inputs.now.records.now inputs.now.pool.now first.0 }
    requires leaf_row { LeafRow inputs.now.rows inputs.now.tape.now row }
    ensures { verdict_in result
        ≡ leaf_verdict inputs.now.records.now inputs.now.pool.now inputs.now.text.now first.0
        (row_at inputs.now.tape.now row) }
{
    let start = number(inputs.tape, row, 6);
    let end = number(inputs.tape, row, 7);
    let is_string = number(inputs.tape, row, 0) == 1;
    let a = admit(
        inputs.records,
        inputs.pool,
        first,
        &inputs.text[start..end],
        is_string,
    );
    told(a, first, number(inputs.tape, row, 3))
}

// The same, unless the memo knows that it is admitted.
#[tactic(auto, using(crate::proofs::AttributeSteps::first_lies, crate::proofs::AttributeSteps::value_known))]
fn judge_leaf(inputs: &Inputs, memo: &mut [u8], first: RecordNumber, row: usize) -> Verdict
    requires items_good { ItemsGood inputs.now.records.now inputs.now.pool.now first.0 }
    requires le_first { 1 ≤ first.0 }
    requires leaf_row { LeafRow inputs.now.rows inputs.now.tape.now row }
    requires memo_good { MemoGood inputs.now.records.now inputs.now.pool.now inputs.now.text.now inputs.now.tape.now inputs.now.rows memo.old }
    ensures memo_good_2 { MemoGood inputs.now.records.now inputs.now.pool.now inputs.now.text.now inputs.now.tape.now inputs.now.rows
        memo.new }
    ensures result_value { verdict_in result
        ≡ leaf_verdict inputs.now.records.now inputs.now.pool.now inputs.now.text.now first.0
        (row_at inputs.now.tape.now row) }
{
    if is_known(inputs, memo, first, row) {
        return Ok(());
    }
    judge_items(inputs, first, row)
}

// The block of a row.
#[tactic(auto, using(crate::proofs::AttributeSteps::block_read))]
fn block_at(tape: &[u16], row: usize) -> Block
    requires { row_size * row + row_size ≤ length tape.now }
    ensures { result ≡ block_on tape.now row }
{
    Block {
        place: number(tape, row, 3),
        type_name: type_at(number(tape, row, 4), number(tape, row, 5)),
        first: row + 1,
        inside: number(tape, row, 7),
    }
}

// The member of a row, by the object or the items with a number, 0 for any: a block that is still to be judged, if it is one
// by an object.
fn judge_value(
    inputs: &Inputs,
    memo: &mut [u8],
    value: RecordNumber,
    row: usize,
) -> Result<Option<Nested>, Failure>
    requires value_link { ValueLink (image_from inputs.now.records.now inputs.now.pool.now) value.0 }
    requires row_lt_rows { row < inputs.now.rows }
    requires memo_good { MemoGood inputs.now.records.now inputs.now.pool.now inputs.now.text.now inputs.now.tape.now inputs.now.rows memo.old }
    ensures memo_good_2 { MemoGood inputs.now.records.now inputs.now.pool.now inputs.now.text.now inputs.now.tape.now inputs.now.rows
        memo.new }
    ensures value_is { ValueIs (image_from inputs.now.records.now inputs.now.pool.now) inputs.now.text.now inputs.now.rows
        inputs.now.tape.now value.0 row result }
{
    if value.0 == 0 {
        return Ok(None);
    }
    let takes_block = kind_of(inputs.records, value) == OBJECT_KIND;
    let holds_block = number(inputs.tape, row, 0) == 0;
    if takes_block != holds_block {
        return Err(Reason::Unsuited.at(value, number(inputs.tape, row, 3)));
    }
    if holds_block {
        return Ok(Some(Nested {
            object: value,
            block: block_at(inputs.tape, row),
        }));
    }
    judge_leaf(inputs, memo, value, row)?;
    Ok(None)
}

// The members of a block, by the attribute with a number: a block inside it that is still to be judged, if there is one.
pub fn judge_attribute(
    inputs: &Inputs,
    memo: &mut [u8],
    n: RecordNumber,
    e: Entry,
    block: Block,
) -> Result<Option<Nested>, Failure>
    requires attribute_at { AttributeAt inputs.now.records.now inputs.now.pool.now n.0 e }
    requires begins { Begins inputs.now.rows block.first block.inside }
    requires memo_good { MemoGood inputs.now.records.now inputs.now.pool.now inputs.now.text.now inputs.now.tape.now inputs.now.rows memo.old }
    ensures memo_good_2 { MemoGood inputs.now.records.now inputs.now.pool.now inputs.now.text.now inputs.now.tape.now inputs.now.rows
        memo.new }
    ensures attribute_answer_is { AttributeAnswerIs (image_from inputs.now.records.now inputs.now.pool.now) inputs.now.text.now inputs.now.rows
        inputs.now.tape.now n.0 block result }
{
    match find_member(
        inputs.text,
        inputs.tape,
        inputs.rows,
        block.first,
        block.inside,
        name_of(inputs.pool, e),
    ) {
        None if e.flag == REQUIRED => Err(Reason::Missing.at(n, block.place)),
        None => Ok(None),
        Some(row) if e.flag == PROHIBITED => Err(Reason::Present.at(
            n,
            number(inputs.tape, row, 3),
        )),
        Some(row) => judge_value(inputs, memo, RecordNumber(e.c), row),
    }
}
