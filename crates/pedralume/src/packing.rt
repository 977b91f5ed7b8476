// The 64-bit number that every call but the feed's three gives back.
ghost use Rattle.std.specs.Prelude.{◌<◌, ◌≡◌};
ghost use Rattle.basics.specs.Bytes.{pair_limit};
ghost use Rattle.basics.specs.Refusals.{verdict_of};
ghost use Rattle.pedralume.specs.Call.{packed};

use basics::verdict::Verdict;

// Number, place, compared and differing, each in its own bits.
pub(crate) fn pack(number: u8, place: u64, compared: u64, differing: u64) -> u64
    requires place_lt_pair_limit { place < pair_limit }
    requires compared_lt_pair_limit { compared < pair_limit }
    requires differing_lt_pair_limit { differing < pair_limit }
    ensures { result ≡ packed number place compared differing }
{
    (number as u64) + 256 * place + 0x100_0000 * compared + 0x100_0000_0000 * differing
}

// What a call that fills one buffer gives: its number and place packed, both counts 0.
pub(crate) fn pack_verdict(verdict: Verdict) -> u64
    requires { (verdict_of verdict).place < pair_limit }
    ensures { result ≡ packed (verdict_of verdict).number (verdict_of verdict).place 0 0 }
{
    match verdict {
        Ok(place) => pack(0, place, 0, 0),
        Err(refused) => pack(refused.refusal.number(), refused.place, 0, 0),
    }
}
