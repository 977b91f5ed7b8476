// The four actions of a chip: a command write, a data write, a data read and a status read. Each hands the successor back.
ghost use Rattle.std.specs.Prelude.{◌≡◌};
ghost use Rattle.basics.specs.Refusals.{numbered};
ghost use Rattle.sed1520.specs.Cycle.{accepted, answer_of, answered, wrote_to, outcome, column_refusal, command_write, data_write};
ghost use Rattle.sed1520.specs.Cycle.{after_read, byte_of, data_read, kind_of, status_byte, status_read};

use crate::commands::{Command, Opcode};
use crate::memory::{image_index, load, store};
use crate::reading::Reading;
use crate::registers::{Chip, ReadLatch};
use basics::refusal::Refusal;

// What a cycle gives back of an accepted record beside the RAM: what it read; which of the 640 RAM bytes of both chips it
// stored to, if any, by its index: 320 x chip + 80 x page + column, the chip by the record's number (a store of the byte
// that stands there already is a store); and the chip's successor.
#[derive(Clone, Copy, Debug, PartialEq, Eq)]
pub struct Accepted {
    pub reading: Reading,
    pub stored: Option<usize>,
    pub chip: Chip,
}

impl Accepted {
    // Nothing stored.
    fn done(reading: Reading, chip: Chip) -> Accepted
        ensures { accepted result ≡ answered (kind_of reading) (byte_of reading) chip }
    {
        Accepted {
            reading,
            stored: None,
            chip,
        }
    }

    // A data write that stored to a byte of the image.
    fn wrote_to(at: usize, chip: Chip) -> Accepted
        ensures { accepted result ≡ wrote_to at chip }
    {
        Accepted {
            reading: Reading::Nothing,
            stored: Some(at),
            chip,
        }
    }
}

// Refuses a byte as a column set: while read-modify-write is on, then with a column that the RAM does not have.
pub(crate) fn check_column(byte: u8, modify: bool) -> Result<(), Refusal>
    ensures { numbered result ≡ column_refusal byte modify }
{
    if byte >= Opcode::Column.count() {
        return Ok(());
    }
    if modify {
        return Err(Refusal::ColumnInModify);
    }
    if byte >= Chip::COLUMN_STOP {
        return Err(Refusal::NoSuchColumn);
    }
    Ok(())
}

impl Chip {
    // A command write.
    pub(crate) fn command(self, byte: u8) -> Result<Accepted, Refusal>
        ensures { answer_of self result ≡ command_write byte self }
    {
        let command = Command::try_from(byte)?;
        check_column(byte, self.modify)?;
        Ok(Accepted::done(Reading::Nothing, self.execute(command)))
    }

    // A data write; the record's chip number gives the index of the byte stored to. It leaves the latch stale at any column;
    // from column 80 on nothing is stored.
    pub(crate) fn data_write(self, chip: u8, byte: u8, ram: &mut [u8]) -> Accepted
        ensures { outcome (accepted result) ram.new ≡ data_write chip byte self ram.old }
    {
        let mut next = self.staled();
        if self.column >= Chip::COLUMN_STOP {
            return Accepted::done(Reading::Nothing, next);
        }
        store(ram, self.page, self.column, byte);
        next.column = self.column + 1;
        Accepted::wrote_to(image_index(chip, self.page, self.column), next)
    }

    // The chip after a data read: below column 80 the latch is loaded from the addressed byte and the column counted
    // on, unless read-modify-write keeps it; from 80 on the latch becomes stale.
    fn after_read(mut self, ram: &[u8]) -> Chip
        ensures { result ≡ after_read self ram.now }
    {
        if self.column >= Chip::COLUMN_STOP {
            return self.staled();
        }
        let next = ReadLatch::Fresh(load(ram, self.page, self.column));
        if !self.modify {
            self.column += 1;
        }
        self.with_latch(next)
    }

    // A data read answers what the latch held.
    #[tactic(auto, unfolding(crate::specs::Cycle::data_read))]
    pub(crate) fn data_read(self, ram: &[u8]) -> Accepted
        ensures { accepted result ≡ data_read self ram.now }
    {
        Accepted::done(self.latch.reading(), self.after_read(ram))
    }

    // D6: forward. D5: display off. The other bits are 0.
    #[tactic(auto, unfolding(crate::specs::Cycle::status_byte))]
    pub(crate) fn status_byte(self) -> u8
        ensures { result ≡ status_byte self }
    {
        match (self.reverse, self.display_on) {
            (true, true) => 0,
            (true, false) => 0x20,
            (false, true) => 0x40,
            (false, false) => 0x60,
        }
    }

    // A status read.
    pub(crate) fn status(self) -> Accepted
        ensures { accepted result ≡ status_read self }
    {
        Accepted::done(Reading::Status(self.status_byte()), self)
    }
}
