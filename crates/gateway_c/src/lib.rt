// The C interface: what is exported to C, with C's names. Each function is the one of the same name in `gateway::interface`.
#![tactic(auto)]

ghost use Rattle.std.specs.Prelude.{◌≡◌};
ghost use Rattle.table.specs.Check.{table_fault};
ghost use Rattle.table.specs.Names.{name_answer};
ghost use Rattle.table_merge.specs.Merge.{request, merge_answer};
ghost use Rattle.compile.specs.Compile.{compile_answer};
ghost use Rattle.judge.specs.Judge.{judge_answer};
ghost use Rattle.gateway.specs.Interface.{placed, refusal_told, AnswerIs, compile_told, check_told, merge_said, merge_told, judge_said, judge_told, name_said, name_told};

use gateway::interface;

// Compiles a constraint text; on 0, `*place` is the table's length.
#[unsafe(no_mangle)]
pub extern "C" fn dk_compile(text: &[u8], little: bool, out: &mut [u8], place: &mut u64) -> u32
    ensures { AnswerIs compile_told (compile_answer text.now little out.old)
        (placed result place.new) out.new }
{
    interface::dk_compile(text, little, out, place)
}

// Checks a table.
#[unsafe(no_mangle)]
pub extern "C" fn dk_check(table: &[u8], place: &mut u64) -> u32
    ensures { placed result place.new ≡ check_told (table_fault table.now) }
{
    interface::dk_check(table, place)
}

// Merges two tables; on 0, `*place` is the table's length; `*which` is 1 or 2 for 12 and 13.
#[unsafe(no_mangle)]
pub extern "C" fn dk_merge(
    first: &[u8],
    second: &[u8],
    little: bool,
    out: &mut [u8],
    place: &mut u64,
    record_shift: &mut u32,
    pool_shift: &mut u32,
    which: &mut u32,
) -> u32
    ensures { AnswerIs merge_told
        (merge_answer (request first.now second.now little) out.old)
        (merge_said (placed result place.new) record_shift.new pool_shift.new
        which.new)
        out.new }
{
    interface::dk_merge(
        first,
        second,
        little,
        out,
        place,
        record_shift,
        pool_shift,
        which,
    )
}

// Judges a data text by a table at a root; 0 is valid; `*record` is 0 unless a verdict names one.
#[unsafe(no_mangle)]
pub extern "C" fn dk_judge(
    table: &[u8],
    root: u32,
    data: &[u8],
    record: &mut u32,
    place: &mut u64,
) -> u32
    ensures { judge_said (placed result place.new) «record».new
        ≡ judge_told (judge_answer table.now root «data».now) }
{
    interface::dk_judge(table, root, data, record, place)
}

// Asks for the name of a record: the part's place in the table's bytes and its length; with a refusal `*start` is its place.
#[unsafe(no_mangle)]
pub extern "C" fn dk_name(table: &[u8], record: u32, start: &mut u64, len: &mut u64) -> u32
    ensures { name_said (placed result start.new) len.new
        ≡ name_told (name_answer table.now «record») }
{
    interface::dk_name(table, record, start, len)
}
