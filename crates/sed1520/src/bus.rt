// One bus cycle: what the bus carried, and which action of the chip it asks for.
ghost use Rattle.std.specs.Prelude.{◌≡◌, IfOk};
ghost use Rattle.basics.specs.Refusals.{numbered};
ghost use Rattle.sed1520.specs.Cycle.{answer_of, bus_refusal, outcome, cycle_of, lines_of};
ghost use Rattle.sed1520.specs.Records.{front};

use crate::actions::Accepted;
use crate::registers::Chip;
use basics::refusal::Refusal;

// The bytes of a record in a trace.
pub const RECORD_BYTES: usize = 4;

// What the control lines ask for: one of the four cycles of the bus.
#[derive(Clone, Copy, Debug, PartialEq, Eq)]
pub enum Action {
    WriteCommand,
    WriteData,
    ReadStatus,
    ReadData,
}

// What one cycle carried: the control lines (bit 0 A0, bit 1 RD, bit 2 WR, both active low), the chip that is
// addressed, the byte on the bus, and a spare byte.
#[derive(Clone, Copy, Debug, PartialEq, Eq)]
pub struct Record {
    pub lines: u8,
    pub chip: u8,
    pub byte: u8,
    pub spare: u8,
}

// A record from its four bytes.
impl From<[u8; RECORD_BYTES]> for Record {
    ghost from_gives = { λ bytes bus. bus ≡ front bytes };

    fn from(bytes: [u8; RECORD_BYTES]) -> Record {
        Record {
            lines: bytes[0],
            chip: bytes[1],
            byte: bytes[2],
            spare: bytes[3],
        }
    }
}

impl Record {
    // What it asks for, or the lowest of numbers 4, 5 and 6.
    pub(crate) fn action(self) -> Result<Action, Refusal>
        ensures number { numbered result ≡ bus_refusal self }
        ensures lines { IfOk result (λ action. lines_of action ≡ self.lines) }
    {
        if self.lines >= 8 || self.spare != 0 {
            return Err(Refusal::SpareBits);
        }
        if self.chip >= 2 {
            return Err(Refusal::NoSuchChip);
        }
        match self.lines {
            2 => Ok(Action::WriteCommand),
            3 => Ok(Action::WriteData),
            4 => Ok(Action::ReadStatus),
            5 => Ok(Action::ReadData),
            _ => Err(Refusal::EqualStrobes),
        }
    }
}

// One cycle of any chip over any RAM; refused, it changes nothing.
pub fn cycle(bus: Record, chip: Chip, ram: &mut [u8]) -> Result<Accepted, Refusal>
    ensures { outcome (answer_of chip result) ram.new ≡ cycle_of bus chip ram.old }
{
    if ram.len() != Chip::RAM_WIDTH {
        return Err(Refusal::WrongSize);
    }
    if !chip.in_range() {
        return Err(Refusal::StateOutOfRange);
    }
    match bus.action()? {
        Action::WriteCommand => chip.command(bus.byte),
        Action::WriteData => Ok(chip.data_write(bus.chip, bus.byte, ram)),
        Action::ReadStatus => Ok(chip.status()),
        Action::ReadData => Ok(chip.data_read(ram)),
    }
}
