// The frame: the 488 bytes that the panel shows.

#![tactic(auto)]

pub mod place;
pub mod segment;

ghost use Rattle.std.specs.Prelude.{◌+◌, ◌*◌, ◌/◌, ◌%◌, ◌^◌, ◌<◌, ◌≤◌, ◌≡◌, ◌&&◌, not, leb, length};
ghost use Rattle.sed1520.specs.Memory.{ram_length};
ghost use Rattle.frame.specs.Frame.{frame_length, ram_column, line_bit, packed_pixels, frame_byte, half_band};
ghost use Rattle.frame.specs.Frame.{frame_of, frame_sizes_wrong, framed};
ghost use Rattle.sed1520.specs.Chip.{column_stop};
ghost use Rattle.sed1520.specs.Laws.{Fit};
ghost use Rattle.basics.specs.Refusals.{verdict_of};
ghost use Rattle.basics.specs.Verdict.{result_of};
ghost use Rattle.panel.specs.Panel.{as_panel, Whole};

use basics::refusal::Refusal;
use basics::verdict::{Refused, Verdict};
use panel::chips::{Chips, IMAGE_BYTES};
use sed1520::memory::index;
use sed1520::registers::Chip;

// A frame: four bands of 122 bytes, one for each column.
pub const FRAME_BYTES: usize = Chip::PANEL_WIDTH * 4;

// The RAM column of a segment.
pub(crate) fn ram_column(chip: Chip, n: usize) -> usize
    requires { n < column_stop }
    ensures { result ≡ ram_column chip n }
{
    if chip.reverse { 79 - n } else { n }
}

// Eight lines from a line on, out of the byte of its page and that of the page below.
fn eight_lines(upper: u8, lower: u8, line: usize) -> u8
    ensures { result ≡ (upper + 256 * lower) / 2 ^ (line % 8) % 256 }
{
    let both = (upper as u16) + 256 * (lower as u16);
    ((both >> (line % 8)) % 256) as u8
}

// The eight pixels of a column from a RAM line on, out of the two pages that they lie in.
fn lines_from(ram: &[u8], column: usize, line: usize) -> u8
    requires ram_len { length ram.now ≡ ram_length }
    requires column_lt_column_stop { column < column_stop }
    requires line_bound { line < 64 }
    ensures { result ≡ packed_pixels (line_bit ram.now column) line 8 }
{
    let page = line % 32 / 8;
    let upper = index(page as u8, column as u8);
    let lower = index(((page + 1) % 4) as u8, column as u8);
    eight_lines(ram[upper], ram[lower], line)
}

// Whether duty 1/16 leaves band r dark.
fn band_dark(chip: Chip, r: usize) -> bool
    ensures { result ≡ (not chip.duty_32 && leb 2 r) }
{
    !chip.duty_32 && r >= 2
}

// The byte of a segment in band r.
fn segment_byte(chip: Chip, ram: &[u8], n: usize, r: usize) -> u8
    requires fit { Fit chip ram.now }
    requires n_lt_column_stop { n < column_stop }
    requires r_bound { r < 4 }
    ensures { result ≡ frame_byte chip ram.now n r }
{
    if !chip.display_on {
        return 0;
    }
    if chip.static_on {
        return 255;
    }
    if band_dark(chip, r) {
        return 0;
    }
    let line = (chip.start_line as usize) + 8 * r;
    lines_from(ram, ram_column(chip, n), line)
}

// A half in band r: a byte for each segment.
fn fill_half(chip: Chip, ram: &[u8], r: usize, half: &mut [u8])
    requires fit { Fit chip ram.now }
    requires r_bound { r < 4 }
    requires half_len_bound { length half.old ≤ column_stop }
    ensures { half.new ≡ half_band (length half.old) chip ram.now r }
{
    for (n, byte) in half.iter_mut().enumerate() {
        *byte = segment_byte(chip, ram, n, r);
    }
}

// The frame of chips in range, band by band: the left half, then the right one.
fn fill(chips: Chips, ram: &[u8], frame: &mut [u8])
    requires whole { Whole (as_panel chips.left chips.right ram.now) }
    requires frame_len { length frame.old ≡ frame_length }
    ensures { frame.new ≡ frame_of (as_panel chips.left chips.right ram.now) }
{
    let Chips { left, right } = chips;
    for r in 0..4 {
        let at = Chip::PANEL_WIDTH * r;
        let middle = at + Chip::SEGMENTS;
        let end = middle + Chip::SEGMENTS;
        fill_half(left, &ram[0..Chip::RAM_WIDTH], r, &mut frame[at..middle]);
        fill_half(right, &ram[Chip::RAM_WIDTH..], r, &mut frame[middle..end]);
    }
}

// Number 1: an image that is not 640 bytes, or a frame buffer that is not 488.
#[tactic(auto, using(std::proofs::lemmas::Bool::Decides::nat_tests), unfolding(crate::specs::Frame::frame_sizes_wrong))]
fn sizes_wrong(ram: usize, frame: usize) -> bool
    ensures { result ≡ frame_sizes_wrong ram frame }
{
    ram != IMAGE_BYTES || frame != FRAME_BYTES
}

// The frame that two chips and their image show, into a buffer of 488 bytes.
pub fn frame(chips: Chips, ram: &[u8], frame: &mut [u8]) -> Verdict
    ensures { result_of (verdict_of result) frame.new
        ≡ framed (as_panel chips.left chips.right ram.now) frame.old }
{
    if sizes_wrong(ram.len(), frame.len()) {
        return Err(Refused::new(Refusal::WrongSize, 0));
    }
    chips.check_range()?;
    fill(chips, ram, frame);
    Ok(FRAME_BYTES as u64)
}
