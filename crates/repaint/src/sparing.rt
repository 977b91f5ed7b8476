// The sparing repaint: the records that bring a 122 by 16 picture to the panel and write, of the hidden pages, only the bytes
// that differ from it.
ghost use Rattle.std.specs.Prelude.{◌≤◌, ◌≡◌, length};
ghost use Rattle.basics.specs.Refusals.{verdict_of};
ghost use Rattle.basics.specs.Verdict.{result_of};
ghost use Rattle.panel.specs.Panel.{image_length, as_panel};
ghost use Rattle.repaint.specs.Repaint.{output_length, picture_length};
ghost use Rattle.repaint.specs.Sparing.{put_front, sparing_records, sparing_sizes_wrong, sparing_of};

use crate::chip_plan::put_turn;
use crate::sparing_page::put_changed_pages;
use crate::{check_ready, sizes_wrong};
use basics::refusal::Refusal;
use basics::verdict::{Refused, Verdict};
use panel::chips::{Chips, IMAGE_BYTES};
use sed1520::bus::RECORD_BYTES;
use sed1520::registers::Chip;

// Number 1: an image that is not 640 bytes, or a size that the repaint refuses.
fn sparing_sizes_wrong(ram: usize, picture: usize, output: usize) -> bool
    ensures { result ≡ sparing_sizes_wrong ram picture output }
{
    ram != IMAGE_BYTES || sizes_wrong(picture, output)
}

// The records of a sparing repaint, written to the front of the output buffer; gives how many bytes they are.
fn put_sparing(chips: Chips, ram: &[u8], picture: &[u8], output: &mut [u8]) -> usize
    requires ram_len { length ram.now ≡ image_length }
    requires picture_len { length picture.now ≡ picture_length }
    requires output_length_in_bounds { output_length ≤ length output.old }
    ensures { result_of result output.new
        ≡ put_front (sparing_records (as_panel chips.left chips.right ram.now) picture.now) output.old }
{
    let Chips { left, right } = chips;
    let half = put_changed_pages(left, 0, &ram[0..Chip::RAM_WIDTH], picture, output);
    let pages = half
        + put_changed_pages(
            right,
            1,
            &ram[Chip::RAM_WIDTH..],
            picture,
            &mut output[half..],
        );
    put_turn(left, 0, &mut output[pages..]);
    put_turn(right, 1, &mut output[pages + RECORD_BYTES..]);
    pages + 2 * RECORD_BYTES
}

// The sparing repaint of a picture on two chips and their image, into an output buffer of at least 1,016 bytes.
pub fn sparing_repaint(chips: Chips, ram: &[u8], picture: &[u8], output: &mut [u8]) -> Verdict
    ensures { result_of (verdict_of result) output.new
        ≡ sparing_of (as_panel chips.left chips.right ram.now) picture.now output.old }
{
    if sparing_sizes_wrong(ram.len(), picture.len(), output.len()) {
        return Err(Refused::new(Refusal::WrongSize, 0));
    }
    check_ready(chips)?;
    let bytes = put_sparing(chips, ram, picture, output);
    Ok((bytes / RECORD_BYTES) as u64)
}
