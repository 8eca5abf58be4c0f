// The numbers of refusal.
ghost use Rattle.std.specs.Prelude.{◌≡◌};
ghost use Rattle.refusals.specs.Refusals.{number_of};

use crate::Cause;

impl From<Cause> for u8 {
    ghost from_gives = { λ cause n. n ≡ number_of cause };

    // The number of a cause.
    #[tactic(auto, unfolding(crate::specs::Refusals::number_of))]
    fn from(cause: Cause) -> u8 {
        match cause {
            Cause::TextTooLong => 1,
            Cause::Unreadable => 2,
            Cause::CannotFollow => 2,
            Cause::EndsEarly => 2,
            Cause::TooDeep => 3,
            Cause::TooLong => 4,
            Cause::Impossible => 5,
            Cause::OutOfRange => 5,
            Cause::BadWord => 5,
            Cause::EmptyInterval => 6,
            Cause::TooManyItems => 7,
            Cause::TooManyRecords => 8,
            Cause::Overlap => 9,
            Cause::RepeatedName => 9,
            Cause::PoolTooLarge => 10,
            Cause::OutputTooShort => 11,
            Cause::NotATable => 12,
            Cause::BrokenRecord => 13,
            Cause::NotAnObject => 14,
            Cause::NoName => 14,
        }
    }
}
