// What a call gives back that is done with a place, or refused.
ghost use Rattle.std.specs.Prelude.{◌≡◌};
ghost use Rattle.basics.specs.Refusals.{refused};

use crate::refusal::Refusal;

// Why a call is refused, and the place of its number.
#[derive(Clone, Copy, Debug, PartialEq, Eq)]
pub struct Refused {
    pub refusal: Refusal,
    pub place: u64,
}

impl Refused {
    // A refusal at a place.
    pub fn new(refusal: Refusal, place: u64) -> Refused
        ensures { result ≡ refused refusal place }
    {
        Refused { refusal, place }
    }
}

// The place of number 0 where a call is done, or why it is refused.
pub type Verdict = Result<u64, Refused>;
