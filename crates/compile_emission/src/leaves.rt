// Leaves, read and written.
ghost use Rattle.std.specs.Prelude.{◌≡◌};
ghost use Rattle.lexis.specs.Tokens.{content_token_at};
ghost use Rattle.lexis.specs.Clauses.Answers.{TokenIs};
ghost use Rattle.meaning.specs.Sorts.{single_row};
ghost use Rattle.meaning.specs.Counting.{value_pool};
ghost use Rattle.cadl_items.specs.Clauses.Answers.{single_of};
ghost use Rattle.compile_flatten.specs.Flatten.{value_table};
ghost use Rattle.compile_emission.specs.Clauses.Answers.{Room, wrote, written, leaf_value};

use crate::lists::{put_ranges, put_single, put_strings};
use crate::spots::Spot;
use cadl_items::leaves::{Leaf, SingleSort, read_leaf};
use cadl_items::spans::SCRATCH_ROOM;
use lexis::Token;
use refusals::Refusal;
use table::layout::{
    BOOLEAN_KIND, DATE_PATTERN_KIND, DURATION_PATTERN_KIND, POOL_ROOM, RECORDS_ROOM,
    TIME_PATTERN_KIND,
};

// The kind of the record of a leaf of one.
fn single_kind(sort: SingleSort) -> u8
    ensures { result ≡ (single_row (single_of sort)).kind }
{
    match sort {
        SingleSort::Booleans => BOOLEAN_KIND,
        SingleSort::DatePattern => DATE_PATTERN_KIND,
        SingleSort::TimePattern => TIME_PATTERN_KIND,
        SingleSort::DurationPattern => DURATION_PATTERN_KIND,
    }
}

// A leaf from a spot on, whose first token is t.
#[tactic(auto, using(crate::proofs::LeafWriting::leaf_faulty, crate::proofs::LeafWriting::strings_room))]
pub fn write_leaf(
    s: &[u8],
    little: bool,
    p: Spot,
    t: Token,
    records: &mut [u8; RECORDS_ROOM],
    bytes: &mut [u8; POOL_ROOM],
) -> Result<Spot, Refusal>
    requires room { Room s.now p }
    requires token_is { TokenIs s.now p.place (content_token_at s.now p.place) t }
    ensures { wrote result records.new bytes.new
        ≡ written value_table value_pool little p records.old bytes.old
        (leaf_value s.now p) }
{
    let mut scratch: [u32; SCRATCH_ROOM] = [0; SCRATCH_ROOM];
    let leaf = read_leaf(s, p.next, p.place, t, &mut scratch)?;
    let behind = match leaf {
        Leaf::Single { sort, flag, next } => {
            put_single(records, little, p, single_kind(sort), flag, next)
        }
        Leaf::Ranges { sort, count, next } => {
            put_ranges(records, little, p, sort, &scratch, count, next)
        }
        Leaf::Strings { count, next } => {
            put_strings(s, records, bytes, little, p, &scratch, count, next)
        }
    };
    Ok(behind)
}
