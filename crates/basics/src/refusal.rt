// Why a call or a record is refused.
ghost use Rattle.std.specs.Prelude.{◌≡◌};
ghost use Rattle.basics.specs.Refusals.{number_of, by_chip};

use crate::verdict::Refused;

// The causes of document 01's table, each with its number there; 13 to 15 are those of requests C-11, C-15 and C-14.
#[derive(Clone, Copy, Debug, PartialEq, Eq)]
pub enum Refusal {
    // a length, or more bytes than one call may take
    WrongSize = 1,
    // a register out of range, or what a feed holds beside its chips
    StateOutOfRange = 2,
    // a trace that ends within a record
    CutRecord = 3,
    // a control line that is none, or a fourth byte that is not 0
    SpareBits = 4,
    NoSuchChip = 5,
    // both strobes low, or both high
    EqualStrobes = 6,
    NoCommand = 7,
    // a column set while read-modify-write is on
    ColumnInModify = 8,
    // the next four: a chip that is not ready for a repaint
    ShowsNoRam = 9,
    LongDuty = 10,
    OtherStartLine = 11,
    InModify = 12,
    // more records than a feed may take
    TooManyRecords = 13,
    // a column set with a column that the RAM does not have
    NoSuchColumn = 14,
    // more entries than there is room for
    TooManyEntries = 15,
}

impl Refusal {
    // Its number in the table.
    pub fn number(self) -> u8
        ensures { result ≡ number_of self }
    {
        self as u8
    }

    // Refused where this holds of a chip, with the first such chip as place, left before right.
    pub fn of_either(self, left: bool, right: bool) -> Result<(), Refused>
        ensures { result ≡ by_chip self left right }
    {
        if left {
            return Err(Refused::new(self, 0));
        }
        if right {
            return Err(Refused::new(self, 1));
        }
        Ok(())
    }
}
