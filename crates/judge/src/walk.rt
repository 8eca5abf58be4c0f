// The walk: a block by an object, and the blocks inside it by the objects of its attributes.
ghost use Rattle.std.specs.Prelude.{◌≡◌, ◌+◌, ◌≤◌, length};
ghost use Rattle.meaning.specs.Judging.{type_suits};
ghost use Rattle.table.specs.Clauses.Answers.{record_of};
ghost use Rattle.judge_admission.specs.Clauses.Items.{name_of, image_from};
ghost use Rattle.judge_attributes.specs.Clauses.Answers.{verdict_in};
ghost use Rattle.judge_tape.specs.Clauses.Rows.{type_on, BlockGood};
ghost use Rattle.judge.specs.Clauses.Walk.{Under};
ghost use Rattle.judge_attributes.specs.Clauses.Attributes.{block_under};
ghost use Rattle.judge_tape.specs.Clauses.Memo.{MemoGood};

use dadl::rows::MEMBER_SIZE;
use judge_admission::{entry_at, name_of};
use judge_attributes::{Reason, Verdict, judge_attribute};
use judge_tape::inputs::Inputs;
use judge_tape::members::Block;
use judge_tape::memo::{enter, is_admitted, mark_chain, may_visit};
use lexis::runs::same_bytes;
use refusals::limits::{RECORD_LIMIT, TEXT_LIMIT};
use table::records::{Entry, RecordNumber};

// Bytes of the memo: a bit for each pair of a row, or the outermost block, and a record.
const MEMO_ROOM: usize = (TEXT_LIMIT / MEMBER_SIZE + 1) * RECORD_LIMIT / 8;

// A block's type, if written, is the object's own.
#[tactic(auto, using(crate::proofs::WalkSteps::type_none, crate::proofs::WalkSteps::type_same, crate::proofs::WalkSteps::type_order, crate::proofs::WalkSteps::type_ahead))]
fn type_suits(inputs: &Inputs, e: Entry, block: Block) -> bool
    requires b_in_bounds { e.a + e.b ≤ length inputs.now.pool.now }
    requires block_good { BlockGood (length inputs.now.text.now) inputs.now.rows block }
    ensures { result
        ≡ type_suits (name_of inputs.now.pool.now (record_of e))
        (type_on inputs.now.text.now block.type_name) }
{
    match block.type_name {
        None => true,
        Some(part) => same_bytes(name_of(inputs.pool, e), &inputs.text[part.start..part.end]),
    }
}

// A block by the object with a number: its type, then each attribute in table order, up to the first failure; a block
// inside it has a level less. What the memo knows to be admitted is not judged again. Without a memo, a walk that has visited
// more attributes than a table has is given up for one with a memo: the table leads to some of them in many ways.
#[cycle(judge_block_judge_with_memo)]
pub fn judge_block(
    inputs: &Inputs,
    memo: &mut [u8],
    visits: &mut u32,
    levels: usize,
    object: RecordNumber,
    block: Block,
) -> Verdict
    requires under { Under inputs.now.records.now inputs.now.pool.now inputs.now.text.now inputs.now.tape.now inputs.now.rows levels object.0 block }
    requires memo_good { MemoGood inputs.now.records.now inputs.now.pool.now inputs.now.text.now inputs.now.tape.now inputs.now.rows memo.old }
    ensures result_value { verdict_in result
        ≡ block_under (image_from inputs.now.records.now inputs.now.pool.now) inputs.now.text.now inputs.now.rows inputs.now.tape.now
        object.0 block }
    ensures memo_good_2 { MemoGood inputs.now.records.now inputs.now.pool.now inputs.now.text.now inputs.now.tape.now inputs.now.rows
        memo.new }
{
    let e = entry_at(inputs.records, object);
    if !type_suits(inputs, e, block) {
        return Err(Reason::TypeDiffers.at(object, block.place));
    }
    let visit = enter(inputs.records, memo, block);
    let mut n = e.e;
    while !is_admitted(memo, visit, n) {
        if !may_visit(memo, visits) {
            return judge_with_memo(inputs, levels, object, block);
        }
        let a = entry_at(inputs.records, RecordNumber(n));
        if let Some(inner) = judge_attribute(inputs, memo, RecordNumber(n), a, block)? {
            judge_block(inputs, memo, visits, levels - 1, inner.object, inner.block)?;
        }
        n = a.d;
    }
    mark_chain(inputs.records, memo, visit, e.e);
    Ok(())
}

// The same with a memo that has a bit for each pair of a row and a record.
#[cycle(judge_block_judge_with_memo)]
fn judge_with_memo(inputs: &Inputs, levels: usize, object: RecordNumber, block: Block) -> Verdict
    requires { Under inputs.now.records.now inputs.now.pool.now inputs.now.text.now inputs.now.tape.now inputs.now.rows levels object.0 block }
    ensures { verdict_in result
        ≡ block_under (image_from inputs.now.records.now inputs.now.pool.now) inputs.now.text.now inputs.now.rows inputs.now.tape.now
        object.0 block }
{
    let mut memo = [0u8; MEMO_ROOM];
    let mut visits: u32 = 0;
    judge_block(inputs, &mut memo, &mut visits, levels, object, block)
}
