// Data text: one pass over it answers its first refusal, or puts a row for each member on the tape.
#![tactic(auto)]

mod blocks;
mod contents;
mod names;
pub mod rows;
mod tokens;

ghost use Rattle.std.specs.Prelude.{◌≡◌, ◌≤◌};
ghost use Rattle.refusals.specs.Limits.{level_limit};
ghost use Rattle.dadl.specs.Data.{block_of};
ghost use Rattle.dadl.specs.Clauses.Answers.{TapeRoom, data_wrote, data_written};

use crate::blocks::read_block;
use crate::rows::type_part;
pub use crate::tokens::Part;
use crate::tokens::{expect_data, outermost_opening};
use lexis::TEXT_END;
use refusals::limits::TEXT_LIMIT;
use refusals::{Cause, Refusal};

// What a data text says: its outermost block's `<` and type, 0 and 0 where it has none, the number of rows on the tape,
// and the text's end.
#[derive(Clone, Copy)]
pub struct DataText {
    pub place: usize,
    pub type_start: usize,
    pub type_end: usize,
    pub rows: usize,
    pub end: usize,
}

// Reads a data text of at most so many levels: its first refusal, or its outermost block, the rows of whose members are then
// on the tape.
#[tactic(auto, using(crate::proofs::DataSteps::data_long, crate::proofs::DataSteps::data_room, crate::proofs::DataSteps::data_behind, crate::proofs::DataSteps::data_read))]
pub fn read_data(s: &[u8], levels: usize, tape: &mut [u16]) -> Result<DataText, Refusal>
    requires levels_le_level_limit { levels ≤ level_limit }
    requires tape_room { TapeRoom s.now tape.old }
    ensures { data_wrote result tape.new
        ≡ data_written tape.old (block_of levels s.now) }
{
    if TEXT_LIMIT < s.len() {
        return Err(Cause::TextTooLong.at(TEXT_LIMIT));
    }
    let opening = outermost_opening(s)?;
    let rows = read_block(s, levels, opening, tape, 0)?;
    let last = expect_data(s, TEXT_END, rows.place)?;
    let type_name = type_part(opening.type_name);
    Ok(DataText {
        place: opening.place,
        type_start: type_name.start,
        type_end: type_name.end,
        rows: rows.end,
        end: last.end,
    })
}
