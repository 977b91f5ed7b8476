// Records given to the bytes of both chips: the chip that a record names is lent its own 12 bytes and its own 320 bytes of
// the image, and nothing else.
ghost use Rattle.std.specs.Prelude.{◌≡◌};
ghost use Rattle.basics.specs.Halves.{part_start};
ghost use Rattle.sed1520.specs.BytesRun.{columns_written};
ghost use Rattle.sed1520.specs.ChipBytes.{chip_length};
ghost use Rattle.sed1520.specs.Records.{front};
ghost use Rattle.sed1520.specs.Replies.{in_place};
ghost use Rattle.panel.specs.Step.{run_chips};

use crate::chips::{CHIPS_BYTES, IMAGE_BYTES};
use basics::refusal::Refusal;
use sed1520::bus::RECORD_BYTES;
use sed1520::bytes_run::run_of_tested_bytes;
use sed1520::chip_bytes::CHIP_BYTES;
use sed1520::registers::Chip;
use sed1520::tally::{Ran, Tally};

// Where a chip's part of two parts of a size begins.
pub fn start_of(chip: u8, size: usize) -> usize
    ensures { result ≡ part_start size chip }
{
    if chip == 0 { 0 } else { size }
}

// The records that a trace begins with and that run together, given to the chip that the first of them names. This is no
// cycle: it refuses wrong lengths by number 1 and wrong bus records by numbers 4 to 8 and 14, but it does not test the chips
// (number 2). It is for a caller that has tested both once, as the replay does.
pub fn run_of_tested_chips(
    chips: &mut [u8],
    ram: &mut [u8],
    trace: &[u8],
    answers: &mut [u8],
) -> Ran
    ensures ran { in_place result.tally chips.new ram.new answers.new
        ≡ run_chips chips.old ram.old trace.now answers.old }
    ensures moved { result.moved
        ≡ columns_written trace.now (part_start chip_length (front trace.now).chip) chips.old chips.new }
{
    if chips.len() != CHIPS_BYTES {
        return Ran::refused(Refusal::WrongSize);
    }
    if ram.len() != IMAGE_BYTES {
        return Ran::refused(Refusal::WrongSize);
    }
    if trace.len() < RECORD_BYTES {
        return Ran::unmoved(Tally::nothing_run(0, 0));
    }
    let from = start_of(trace[1], CHIP_BYTES);
    let start = start_of(trace[1], Chip::RAM_WIDTH);
    run_of_tested_bytes(
        &mut chips[from..from + CHIP_BYTES],
        &mut ram[start..start + Chip::RAM_WIDTH],
        trace,
        answers,
    )
}
