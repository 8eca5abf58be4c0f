// The answers of the jobs, printed.
ghost use Rattle.std.specs.Prelude.{◌≡◌};
ghost use Rattle.vectors.specs.Reading.{length_or_nought};

use crate::output::{say, say_number, say_refusal};
use judge::Denial;
use refusals::Refusal;
use table_merge::{MergeRefusal, Merged};

// What compiling answers; how long the table is, 0 where there is none.
pub fn say_compile(answer: Result<usize, Refusal>) -> usize
    ensures { result ≡ length_or_nought answer }
{
    match answer {
        Ok(length) => {
            say_number(b" length ", length as u64);
            length
        }
        Err(refusal) => {
            say_refusal(refusal);
            0
        }
    }
}

// What a merge answers.
pub fn say_merge(answer: Result<Merged, MergeRefusal>) {
    match answer {
        Ok(merged) => {
            say_number(b" length ", merged.length as u64);
            say_number(b", shifts ", u64::from(merged.records.0));
            say_number(b" and ", u64::from(merged.pool.0));
        }
        Err(MergeRefusal { table, refusal }) => {
            say_refusal(refusal);
            say_number(b", table ", u64::from(u8::from(table)));
        }
    }
}

// What judging answers.
pub fn say_judge(answer: Result<(), Denial>) {
    match answer {
        Ok(()) => say(b" valid"),
        Err(Denial::Refused(refusal)) => say_refusal(refusal),
        Err(Denial::Failed(failure)) => {
            say_number(b" reason ", u64::from(u8::from(failure.reason)));
            say_number(b", record ", u64::from(failure.record.0));
            say_number(b", place ", failure.place as u64);
        }
    }
}
