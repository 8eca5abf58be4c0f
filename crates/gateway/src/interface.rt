// The C interface. Each function returns 0 or document 01's number, and sets every argument that is lent to it: to what the outcome names, else to 0.
ghost use Rattle.std.specs.Prelude.{◌≡◌};
ghost use Rattle.table.specs.Check.{table_fault};
ghost use Rattle.table.specs.Names.{name_answer};
ghost use Rattle.table_merge.specs.Merge.{request, merge_answer};
ghost use Rattle.compile.specs.Compile.{compile_answer};
ghost use Rattle.judge.specs.Judge.{judge_answer};
ghost use Rattle.gateway.specs.Interface.{placed, refusal_told, AnswerIs, compile_told, check_told, merge_said, merge_told, judge_said, judge_told, name_said, name_told};

use judge::Denial;
use refusals::Refusal;
use table_merge::{MergeRefusal, Merged};

// Returns a refusal's number, and sets its place.
fn told(refusal: Refusal, place: &mut u64) -> u32
    ensures { placed result place.new ≡ refusal_told refusal }
{
    *place = refusal.place as u64;
    u32::from(u8::from(refusal.cause))
}

// Compiles a constraint text; on 0, `*place` is the table's length.
pub fn dk_compile(text: &[u8], little: bool, out: &mut [u8], place: &mut u64) -> u32
    ensures { AnswerIs compile_told (compile_answer text.now little out.old)
        (placed result place.new) out.new }
{
    match compile::compile(text, little, out) {
        Ok(length) => {
            *place = length as u64;
            0
        }
        Err(refusal) => told(refusal, place),
    }
}

// Checks a table.
pub fn dk_check(table: &[u8], place: &mut u64) -> u32
    ensures { placed result place.new ≡ check_told (table_fault table.now) }
{
    let Err(refusal) = table::check::check(table) else {
        *place = 0;
        return 0;
    };
    told(refusal, place)
}

// Merges two tables; on 0, `*place` is the table's length; `*which` is 1 or 2 for 12 and 13.
pub fn dk_merge(
    first: &[u8],
    second: &[u8],
    little: bool,
    out: &mut [u8],
    place: &mut u64,
    record_shift: &mut u32,
    pool_shift: &mut u32,
    which: &mut u32,
) -> u32
    ensures { AnswerIs merge_told
        (merge_answer (request first.now second.now little) out.old)
        (merge_said (placed result place.new) record_shift.new pool_shift.new
        which.new)
        out.new }
{
    match table_merge::merge(first, second, little, out) {
        Ok(
            Merged {
                length,
                records,
                pool,
            },
        ) => {
            *place = length as u64;
            *record_shift = records.0;
            *pool_shift = pool.0;
            *which = 0;
            0
        }
        Err(MergeRefusal { table, refusal }) => {
            *record_shift = 0;
            *pool_shift = 0;
            *which = u32::from(u8::from(table));
            told(refusal, place)
        }
    }
}

// Judges a data text by a table at a root; 0 is valid; `*record` is 0 unless a verdict names one.
pub fn dk_judge(table: &[u8], root: u32, data: &[u8], record: &mut u32, place: &mut u64) -> u32
    ensures { judge_said (placed result place.new) «record».new
        ≡ judge_told (judge_answer table.now root «data».now) }
{
    match judge::judge(table, root, data) {
        Ok(()) => {
            *record = 0;
            *place = 0;
            0
        }
        Err(Denial::Refused(refusal)) => {
            *record = 0;
            told(refusal, place)
        }
        Err(Denial::Failed(failure)) => {
            *record = failure.record.0;
            *place = failure.place as u64;
            u32::from(u8::from(failure.reason))
        }
    }
}

// Asks for the name of a record: the part's place in the table's bytes and its length; with a refusal `*start` is its place.
pub fn dk_name(table: &[u8], record: u32, start: &mut u64, len: &mut u64) -> u32
    ensures { name_said (placed result start.new) len.new
        ≡ name_told (name_answer table.now «record») }
{
    match table::names::name_refusal(table, record) {
        Ok(part) => {
            *start = part.start as u64;
            *len = part.length as u64;
            0
        }
        Err(refusal) => {
            *len = 0;
            told(refusal, start)
        }
    }
}
