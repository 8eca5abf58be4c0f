// Durations as they are spelled.
ghost use Rattle.std.specs.Prelude.{◌≡◌};
ghost use Rattle.values.specs.Durations.{duration_of};

use lexis::durations::word_slots;

// The slots that the duration that bytes spell fills, as a flag, with or without a sign.
#[tactic(auto, using(crate::proofs::DurationSteps::steps))]
pub fn duration_of(w: &[u8]) -> Option<u8>
    ensures { result ≡ duration_of w.now }
{
    match w {
        [b'-', slots @ ..] => word_slots(slots),
        _ => word_slots(w),
    }
}
