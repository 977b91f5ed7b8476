// What one segment shows, all its rows at once.
ghost use Rattle.std.specs.Prelude.{◌+◌, ◌*◌, ◌/◌, ◌%◌, ◌^◌, ◌<◌, ◌≡◌, length};
ghost use Rattle.sed1520.specs.Memory.{ram_length};
ghost use Rattle.frame.specs.Frame.{segments, line_bit, packed_pixels, segment_rows, segment_of, segment_pixels};
ghost use Rattle.sed1520.specs.Chip.{column_stop};

use crate::ram_column;
use basics::refusal::Refusal;
use basics::word_of;
use sed1520::memory::index;
use sed1520::registers::Chip;

// The four pages of a column as one number, line 0 lowest.
fn column_lines(ram: &[u8], column: usize) -> u32
    requires ram_len { length ram.now ≡ ram_length }
    requires column_lt_column_stop { column < column_stop }
    ensures { result ≡ packed_pixels (line_bit ram.now column) 0 32 }
{
    let first = index(0, column as u8);
    let second = index(1, column as u8);
    let third = index(2, column as u8);
    let fourth = index(3, column as u8);
    word_of(ram[first], ram[second], ram[third], ram[fourth])
}

// 32 lines turned so that they begin at a line, those before it at the end.
fn turned(lines: u32, line: u8) -> u32
    ensures { result ≡ (lines + 2 ^ 32 * lines) / 2 ^ (line % 32) % 2 ^ 32 }
{
    let twice = (lines as u64) + 0x1_0000_0000 * (lines as u64);
    ((twice >> (line % 32)) % 0x1_0000_0000) as u32
}

// The 32 pixels of a segment that the chip drives, row 0 lowest.
fn segment_rows(chip: Chip, ram: &[u8], n: usize) -> u32
    requires ram_len { length ram.now ≡ ram_length }
    requires n_lt_segments { n < segments }
    ensures { result ≡ segment_rows chip ram.now n }
{
    if !chip.display_on {
        return 0;
    }
    if chip.static_on {
        return 0xFFFF_FFFF;
    }
    let shown = turned(column_lines(ram, ram_column(chip, n)), chip.start_line);
    if chip.duty_32 {
        shown
    } else {
        shown % 0x1_0000
    }
}

// The 32 pixels of a segment, row 0 lowest: number 1 for RAM that is not 320 bytes or a segment that the chip does not drive, 2 for a chip
// out of range.
#[tactic(auto, using(std::proofs::lemmas::Bool::Decides::nat_tests), unfolding(crate::specs::Frame::segment_pixels))]
pub fn segment_pixels(chip: Chip, ram: &[u8], n: usize) -> Result<u32, Refusal>
    ensures { segment_of result ≡ segment_pixels chip ram.now n }
{
    if ram.len() != Chip::RAM_WIDTH || n >= Chip::SEGMENTS {
        return Err(Refusal::WrongSize);
    }
    if !chip.in_range() {
        return Err(Refusal::StateOutOfRange);
    }
    Ok(segment_rows(chip, ram, n))
}
