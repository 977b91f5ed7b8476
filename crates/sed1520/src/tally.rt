// What a run of records gives back, and which answers are counted.
ghost use Rattle.std.specs.Prelude.{◌≡◌, eqb};
ghost use Rattle.basics.specs.Choice.{if};
ghost use Rattle.basics.specs.Refusals.{number_of};
ghost use Rattle.sed1520.specs.Cycle.{kind_of};
ghost use Rattle.sed1520.specs.Replies.{is_compared, nothing_run, ran_unmoved};

use crate::reading::Reading;
use basics::refusal::Refusal;
use basics::verdict::Refused;

// The bytes of a record's answer.
pub const ANSWER_BYTES: usize = 2;

// What a run of records gives back beside what it was lent: the number and its place, how many reads were compared with
// the trace and how many of these differ. The number is no `Refusal`: a stopped feed repeats any that its bytes hold, as C
// gives them.
#[derive(Clone, Copy, Debug, PartialEq, Eq)]
pub struct Tally {
    pub number: u8,
    pub place: u64,
    pub compared: u64,
    pub differing: u64,
}

impl Tally {
    // No record run: nothing is changed and nothing compared.
    pub fn nothing_run(number: u8, place: u64) -> Tally
        ensures { result ≡ nothing_run number place }
    {
        Tally {
            number,
            place,
            compared: 0,
            differing: 0,
        }
    }

    // A call refused: no record run.
    pub fn refused(refused: Refused) -> Tally
        ensures { result ≡ nothing_run (number_of refused.refusal) refused.place }
    {
        Tally::nothing_run(refused.refusal.number(), refused.place)
    }
}

// What records that run together give back: their tally, and by how many columns data writes moved the column on, which is
// how many bytes these stored to.
#[derive(Clone, Copy, Debug, PartialEq, Eq)]
pub struct Ran {
    pub tally: Tally,
    pub moved: u8,
}

impl Ran {
    // No column moved by a data write.
    pub fn unmoved(tally: Tally) -> Ran
        ensures { result ≡ ran_unmoved tally }
    {
        Ran { tally, moved: 0 }
    }

    // The first record refused: nothing ran.
    pub fn refused(refusal: Refusal) -> Ran
        ensures { result ≡ ran_unmoved (nothing_run (number_of refusal) 0) }
    {
        Ran::unmoved(Tally::refused(Refused::new(refusal, 0)))
    }
}

// Whether what was read is compared with the trace, as a count.
pub(crate) fn compares(reading: Reading) -> u64
    ensures { result ≡ if (is_compared (kind_of reading)) 1 0 }
{
    match reading {
        Reading::Fresh(_) | Reading::Status(_) => 1,
        Reading::Nothing | Reading::Stale(_) => 0,
    }
}

// How many compared answers differ from the trace, of one that is compared or of none.
pub(crate) fn differs(compared: u64, byte: u8, recorded: u8) -> u64
    ensures { result ≡ if (eqb byte recorded) 0 compared }
{
    if byte == recorded { 0 } else { compared }
}
