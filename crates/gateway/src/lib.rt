// The five jobs under one roof. Any bytes may be given to each; none has a `requires`. Each answer, and every byte of a lent output, is what the
// definition says that the contract names, once by document 01's numbers and once by the cause; crates/demands/specs/Demands.antt states the three
// demands over these definitions.
#![tactic(auto)]

pub mod interface;

ghost use Rattle.std.specs.Prelude.{◌≡◌};
ghost use Rattle.refusals.specs.Outcomes.{answered};
ghost use Rattle.table.specs.Check.{table_fault};
ghost use Rattle.table.specs.Names.{name_answer, slice_bytes};
ghost use Rattle.table.specs.Clauses.Answers.{fault_of};
ghost use Rattle.table.specs.Clauses.Answers as tables;
ghost use Rattle.table_merge.specs.Merge.{request, merge_answer};
ghost use Rattle.table_merge.specs.Clauses.Answers as merges;
ghost use Rattle.compile.specs.Compile.{compile_answer};
ghost use Rattle.compile.specs.Clauses.Answers as compiles;
ghost use Rattle.judge.specs.Judge.{judge_answer};
ghost use Rattle.judge.specs.Clauses.Answers as judges;
ghost use Rattle.gateway.specs.Interface.{AnswerIs, compile_told, compile_numbers, check_told, check_numbers, merge_told, merge_numbers, judge_told, judge_numbers, name_told, name_numbers};

use judge::Denial;
use refusals::Refusal;
use table::names::NamePart;
use table_merge::{MergeRefusal, Merged};

// Compiles a constraint text into a table whose numbers are in the order asked: demands 1, 2 and 3.
pub fn compile(text: &[u8], little: bool, out: &mut [u8]) -> Result<usize, Refusal>
    ensures answer_is { AnswerIs compile_told (compile_answer text.now little out.old)
        (compile_numbers result) out.new }
    ensures out_after { answered (compiles.answer_of result) out.new
        ≡ compile_answer text.now little out.old }
{
    compile::compile(text, little, out)
}

// Checks whether bytes are a table: demands 1 and 2.
pub fn check(table: &[u8]) -> Result<(), Refusal>
    ensures result_value { check_numbers result ≡ check_told (table_fault table.now) }
    ensures result_value_2 { fault_of result ≡ table_fault table.now }
{
    table::check::check(table)
}

// Merges two tables into one whose numbers are in the order asked: demands 1 and 3.
pub fn merge(
    first: &[u8],
    second: &[u8],
    little: bool,
    out: &mut [u8],
) -> Result<Merged, MergeRefusal>
    ensures answer_is { AnswerIs merge_told
        (merge_answer (request first.now second.now little) out.old)
        (merge_numbers result) out.new }
    ensures out_after { answered (merges.answer_of result) out.new
        ≡ merge_answer (request first.now second.now little) out.old }
{
    table_merge::merge(first, second, little, out)
}

// Judges a data text by a table at a root: demands 1, 2 and 3.
pub fn judge(table: &[u8], root: u32, text: &[u8]) -> Result<(), Denial>
    ensures result_value { judge_numbers result ≡ judge_told (judge_answer table.now root text.now) }
    ensures result_value_2 { judges.answer_of result ≡ judge_answer table.now root text.now }
{
    judge::judge(table, root, text)
}

// Hands out the name of a record, the part of the table itself; with a refusal, an empty part: demand 1.
pub fn name<'a>(table: &'a [u8], record: u32) -> &'a [u8]
    ensures { result.now ≡ slice_bytes table.now (name_answer table.now «record») }
{
    table::names::name(table, record)
}

// Tells where the name of a record lies in a table, and else why it has none.
pub fn name_refusal(table: &[u8], record: u32) -> Result<NamePart, Refusal>
    ensures result_value { name_numbers result ≡ name_told (name_answer table.now «record») }
    ensures result_value_2 { tables.answer_of result ≡ name_answer table.now «record» }
{
    table::names::name_refusal(table, record)
}
