// What is refused and why; the limits and numbers of document 01; and the tokens of constraint text that must stand at a place.
#![tactic(auto)]

ghost use Rattle.std.specs.Prelude.{◌≡◌};
ghost use Rattle.refusals.specs.Refusals.{refusal};

pub mod limits;
pub mod numbers;
pub mod steps;

// Why a text, a table or a request is refused: what happened. A definition gives document 01's number for each.
#[derive(Clone, Copy)]
pub enum Cause {
    TextTooLong,
    Unreadable,
    CannotFollow,
    EndsEarly,
    TooDeep,
    TooLong,
    Impossible,
    OutOfRange,
    BadWord,
    EmptyInterval,
    TooManyItems,
    TooManyRecords,
    Overlap,
    RepeatedName,
    PoolTooLarge,
    OutputTooShort,
    NotATable,
    BrokenRecord,
    NotAnObject,
    NoName,
}

// A refusal: its cause, and the place that document 01 names for it.
#[derive(Clone, Copy)]
pub struct Refusal {
    pub cause: Cause,
    pub place: usize,
}

impl Cause {
    // The refusal for this cause, at a place.
    pub fn at(self, place: usize) -> Refusal
        ensures { result ≡ refusal self place }
    {
        Refusal { cause: self, place }
    }
}
