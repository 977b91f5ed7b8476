// A chip as 12 bytes, both ways.
ghost use Rattle.std.specs.Prelude.{◌≡◌, length};
ghost use Rattle.sed1520.specs.ChipBytes.{chip_length, mark, as_latch, registers_in, flags_right, bytes_pass, no_chip, chip_in, chip_out};

use crate::registers::{Chip, ReadLatch};

// How many bytes a chip is.
pub const CHIP_BYTES: usize = 12;

// The places of the page and of the column among them.
pub const PAGE_BYTE: usize = 5;

pub const COLUMN_BYTE: usize = 7;

// 1 for a fresh latch.
fn mark(latch: ReadLatch) -> u8
    ensures { result ≡ mark latch }
{
    u8::from(matches!(latch, ReadLatch::Fresh(_)))
}

// The latch of a mark and a byte.
fn latch_of(mark: u8, byte: u8) -> ReadLatch
    ensures { result ≡ as_latch mark byte }
{
    if mark == 1 {
        ReadLatch::Fresh(byte)
    } else {
        ReadLatch::Stale(byte)
    }
}

// The registers that 12 bytes say, their flags, mark and last byte not tested.
#[tactic(auto, unfolding(crate::specs::ChipBytes::registers_in))]
pub(crate) fn registers_in(bytes: &[u8]) -> Chip
    requires { length bytes.now ≡ chip_length }
    ensures { result ≡ registers_in bytes.now }
{
    Chip {
        display_on: bytes[0] == 1,
        static_on: bytes[1] == 1,
        duty_32: bytes[2] == 1,
        reverse: bytes[3] == 1,
        modify: bytes[4] == 1,
        page: bytes[5],
        start_line: bytes[6],
        column: bytes[7],
        saved_column: bytes[8],
        latch: latch_of(bytes[9], bytes[10]),
    }
}

// Whether the flags and the mark are 0 or 1 and the last byte is 0.
fn flags_right(bytes: &[u8]) -> bool
    requires { length bytes.now ≡ chip_length }
    ensures { result ≡ flags_right bytes.now }
{
    (bytes[0] < 2)
        & (bytes[1] < 2)
        & (bytes[2] < 2)
        & (bytes[3] < 2)
        & (bytes[4] < 2)
        & (bytes[9] < 2)
        & (bytes[11] == 0)
}

// Whether number 2 lets these bytes of a chip pass.
pub fn bytes_pass(bytes: &[u8]) -> bool
    ensures { result ≡ bytes_pass bytes.now }
{
    bytes.len() == CHIP_BYTES && flags_right(bytes) && registers_in(bytes).in_range()
}

// A chip that number 2 does not let pass.
pub fn no_chip() -> Chip
    ensures { result ≡ no_chip }
{
    Chip {
        page: 4,
        ..Chip::fresh()
    }
}

// The chip of 12 bytes; where there are not 12, or a flag, the mark or the last byte is wrong, one that number 2 does not
// let pass. A chip so given is for testing and not for writing back.
#[tactic(auto, unfolding(crate::specs::ChipBytes::chip_in))]
pub fn chip_in(bytes: &[u8]) -> Chip
    ensures { result ≡ chip_in bytes.now }
{
    if bytes.len() == CHIP_BYTES && flags_right(bytes) {
        registers_in(bytes)
    } else {
        no_chip()
    }
}

// The chip written as 12 bytes, where there are 12 to write to.
pub fn chip_out(chip: Chip, bytes: &mut [u8])
    ensures { bytes.new ≡ chip_out chip bytes.old }
{
    if bytes.len() != CHIP_BYTES {
        return;
    }
    bytes.copy_from_slice(&[
        u8::from(chip.display_on),
        u8::from(chip.static_on),
        u8::from(chip.duty_32),
        u8::from(chip.reverse),
        u8::from(chip.modify),
        chip.page,
        chip.start_line,
        chip.column,
        chip.saved_column,
        mark(chip.latch),
        chip.latch.byte(),
        0,
    ]);
}
