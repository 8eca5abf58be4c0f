// The room that is left for one more record and for one more item of a list.
ghost use Rattle.std.specs.Prelude.{◌≡◌};
ghost use Rattle.cadl_items.specs.Clauses.Items.{record_left, room_left};

use refusals::limits::{ITEM_LIMIT, RECORD_LIMIT};
use refusals::{Cause, Refusal};

// Refuses at a place, if there is no room for one more record.
pub fn record_left(number: usize, place: usize) -> Result<(), Refusal>
    ensures { result ≡ record_left number place }
{
    if number == RECORD_LIMIT {
        return Err(Cause::TooManyRecords.at(place));
    }
    Ok(())
}

// Refuses at a place, if there is no room for one more item and one more record.
pub fn room_left(number: usize, count: usize, place: usize) -> Result<(), Refusal>
    ensures { result ≡ room_left number count place }
{
    if count == ITEM_LIMIT {
        return Err(Cause::TooManyItems.at(place));
    }
    record_left(number, place)
}
