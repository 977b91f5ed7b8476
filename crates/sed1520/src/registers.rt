// A chip's registers.
ghost use Rattle.std.specs.Prelude.{◌≡◌};
ghost use Rattle.sed1520.specs.Chip.{in_range, fresh, latched, stale, with_latch, staled};
ghost use Rattle.sed1520.specs.Cycle.{read_of};

use crate::reading::Reading;

// The byte that the next data read answers (document 01: the holder): fresh where a data read loaded it and nothing
// made it stale since.
#[derive(Clone, Copy, Debug, PartialEq, Eq)]
pub enum ReadLatch {
    Stale(u8),
    Fresh(u8),
}

impl ReadLatch {
    // The byte, fresh or stale.
    pub(crate) fn byte(self) -> u8
        ensures { result ≡ latched self }
    {
        match self {
            ReadLatch::Fresh(byte) | ReadLatch::Stale(byte) => byte,
        }
    }

    // What a data read answers.
    pub(crate) fn reading(self) -> Reading
        ensures { result ≡ read_of self }
    {
        match self {
            ReadLatch::Fresh(byte) => Reading::Fresh(byte),
            ReadLatch::Stale(byte) => Reading::Stale(byte),
        }
    }

    // A stale latch keeps its byte.
    pub(crate) fn made_stale(self) -> ReadLatch
        ensures { result ≡ stale self }
    {
        ReadLatch::Stale(self.byte())
    }
}

// All of a chip but its display RAM, which is lent to each cycle.
#[derive(Clone, Copy, Debug, PartialEq, Eq)]
pub struct Chip {
    pub display_on: bool,
    pub static_on: bool,
    // duty 1/32, else 1/16
    pub duty_32: bool,
    // ADC reverse, else forward
    pub reverse: bool,
    // read-modify-write
    pub modify: bool,
    pub page: u8,
    pub start_line: u8,
    pub column: u8,
    // the column that the end of read-modify-write returns to
    pub saved_column: u8,
    pub latch: ReadLatch,
}

impl Chip {
    // The column at which counting stops: the RAM has the columns below it, and a column set takes one of these. The
    // command's argument has more values, Opcode::count of them.
    pub const COLUMN_STOP: u8 = 80;
    // The segments that a chip drives.
    pub const SEGMENTS: usize = 61;
    // The columns of the panel: the segments of two chips.
    pub const PANEL_WIDTH: usize = 2 * Chip::SEGMENTS;
    // The bytes of a page of display RAM.
    pub const PAGE_WIDTH: usize = Chip::COLUMN_STOP as usize;
    // The bytes of a chip's four pages.
    pub const RAM_WIDTH: usize = 4 * Chip::PAGE_WIDTH;

    // The chip before its first cycle, a project rule.
    #[tactic(auto, unfolding(crate::specs::Chip::fresh))]
    pub fn fresh() -> Chip
        ensures { result ≡ fresh }
    {
        Chip {
            display_on: false,
            static_on: false,
            duty_32: true,
            reverse: false,
            modify: false,
            page: 0,
            start_line: 0,
            column: 0,
            saved_column: 0,
            latch: ReadLatch::Stale(0),
        }
    }

    // Whether number 2 lets this value of a chip pass.
    #[tactic(auto, using(std::proofs::lemmas::Bool::Decides::nat_tests), unfolding(crate::specs::Chip::in_range))]
    pub fn in_range(self) -> bool
        ensures { result ≡ in_range self }
    {
        self.page < 4
            && self.start_line < 32
            && self.column <= Chip::COLUMN_STOP
            && self.saved_column <= Chip::COLUMN_STOP
            && (self.modify || self.saved_column == 0)
    }

    // The read latch written, all else as it was.
    pub(crate) fn with_latch(self, latch: ReadLatch) -> Chip
        ensures { result ≡ with_latch latch self }
    {
        Chip { latch, ..self }
    }

    // The read latch made stale, all else as it was.
    pub(crate) fn staled(self) -> Chip
        ensures { result ≡ staled self }
    {
        self.with_latch(self.latch.made_stale())
    }
}
