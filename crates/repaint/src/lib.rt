// The repaint: the 254 records that bring a 122 by 16 picture to the panel. The sparing repaint is in sparing.

#![tactic(auto)]

mod chip_plan;
pub mod sparing;
mod sparing_page;

ghost use Rattle.std.specs.Prelude.{◌<◌, ◌≤◌, ◌≡◌, ◌++◌, length, drop};
ghost use Rattle.basics.specs.Refusals.{refused_or, verdict_of};
ghost use Rattle.basics.specs.Verdict.{result_of, verdict};
ghost use Rattle.sed1520.specs.Records.{records_bytes};
ghost use Rattle.repaint.specs.Repaint.{output_length, picture_length, repaint_records, repaint_sizes_wrong, shows_no_ram, wrong_line};
ghost use Rattle.repaint.specs.Repaint.{chips_verdict, repaint_cycles, repaint_of};

use crate::chip_plan::{put_pages, put_turn};
use basics::refusal::Refusal;
use basics::verdict::{Refused, Verdict};
use panel::chips::Chips;
use sed1520::bus::RECORD_BYTES;
use sed1520::registers::Chip;

// The bytes of a picture.
pub const PICTURE_BYTES: usize = 2 * Chip::PANEL_WIDTH;

// The bytes of the 254 records of a repaint.
pub const OUTPUT_BYTES: usize = RECORD_BYTES * REPAINT_RECORDS;

// The records of a repaint: those of four hidden pages, then two start lines turned.
const REPAINT_RECORDS: usize = 4 * PAGE_RECORDS + 2;

// The records of a hidden page: page set, column set and a data write for each segment.
const PAGE_RECORDS: usize = 2 + Chip::SEGMENTS;

// The bytes of the records of a hidden page.
const PAGE_BYTES: usize = RECORD_BYTES * PAGE_RECORDS;

// Number 1: a picture that is not 244 bytes, or an output buffer under 1,016.
#[tactic(auto, using(std::proofs::lemmas::Bool::Decides::nat_tests), unfolding(crate::specs::Repaint::repaint_sizes_wrong))]
pub(crate) fn sizes_wrong(picture: usize, output: usize) -> bool
    ensures { result ≡ repaint_sizes_wrong picture output }
{
    picture != PICTURE_BYTES || output < OUTPUT_BYTES
}

// Number 9: display off, or static drive on.
fn shows_no_ram(chip: Chip) -> bool
    ensures { result ≡ shows_no_ram chip }
{
    !chip.display_on || chip.static_on
}

// Number 11: a start line that is neither 0 nor 16.
fn wrong_line(chip: Chip) -> bool
    ensures { result ≡ wrong_line chip }
{
    chip.start_line != 0 && chip.start_line != 16
}

// Refuses chips that are not ready for a repaint: numbers 2 and 9 to 12, lowest first, left before right.
pub(crate) fn check_ready(chips: Chips) -> Result<(), Refused>
    ensures { refused_or (verdict 0 repaint_cycles) result ≡ chips_verdict chips.left chips.right }
{
    let Chips { left, right } = chips;
    chips.check_range()?;
    Refusal::ShowsNoRam.of_either(shows_no_ram(left), shows_no_ram(right))?;
    Refusal::LongDuty.of_either(left.duty_32, right.duty_32)?;
    Refusal::OtherStartLine.of_either(wrong_line(left), wrong_line(right))?;
    Refusal::InModify.of_either(left.modify, right.modify)
}

// The 254 records of a repaint, written to the front of the output buffer.
fn put_records(chips: Chips, picture: &[u8], output: &mut [u8])
    requires picture_len { length picture.now ≡ picture_length }
    requires output_length_in_bounds { output_length ≤ length output.old }
    ensures { output.new
        ≡ records_bytes (repaint_records chips.left chips.right picture.now) ++ drop output_length output.old }
{
    let Chips { left, right } = chips;
    put_pages(left, 0, picture, output);
    put_pages(right, 1, picture, &mut output[2 * PAGE_BYTES..]);
    put_turn(left, 0, &mut output[4 * PAGE_BYTES..]);
    put_turn(right, 1, &mut output[4 * PAGE_BYTES + 4..]);
}

// The repaint of a picture on two chips, into an output buffer of at least 1,016 bytes.
pub fn repaint(chips: Chips, picture: &[u8], output: &mut [u8]) -> Verdict
    ensures { result_of (verdict_of result) output.new
        ≡ repaint_of chips.left chips.right picture.now output.old }
{
    if sizes_wrong(picture.len(), output.len()) {
        return Err(Refused::new(Refusal::WrongSize, 0));
    }
    check_ready(chips)?;
    put_records(chips, picture, output);
    Ok(REPAINT_RECORDS as u64)
}
