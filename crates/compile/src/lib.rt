// Compiling a constraint text into a table. The definitions stand in specs/.
#![tactic(auto)]

mod objects;
mod output;

ghost use Rattle.std.specs.Prelude.{◌≡◌};
ghost use Rattle.refusals.specs.Outcomes.{answered};
ghost use Rattle.compile.specs.Compile.{compile_answer};
ghost use Rattle.compile.specs.Clauses.Answers.{answer_of};

use crate::objects::read_object;
use crate::output::finish;
use compile_emission::spots::{NAMES_ROOM, Spot};
use refusals::limits::{LEVEL_LIMIT, TEXT_LIMIT};
use refusals::{Cause, Refusal};
use table::layout::{POOL_ROOM, RECORDS_ROOM};

// Compiles a constraint text into a table in the order asked, with the lowest byte first where `little` holds; the table's length. A refusal changes no byte of the output.
pub fn compile(text: &[u8], little: bool, out: &mut [u8]) -> Result<usize, Refusal>
    ensures { answered (answer_of result) out.new
        ≡ compile_answer text.now little out.old }
{
    if TEXT_LIMIT < text.len() {
        return Err(Cause::TextTooLong.at(TEXT_LIMIT));
    }
    let mut records: [u8; RECORDS_ROOM] = [0; RECORDS_ROOM];
    let mut bytes: [u8; POOL_ROOM] = [0; POOL_ROOM];
    let mut names: [u32; NAMES_ROOM] = [0; NAMES_ROOM];
    let p = Spot {
        place: 0,
        next: 1,
        pool: 0,
    };
    let q = read_object(
        text,
        little,
        LEVEL_LIMIT,
        p,
        0,
        &mut records,
        &mut bytes,
        &mut names,
    )?;
    finish(text, little, q, &mut records, &bytes, out)
}
