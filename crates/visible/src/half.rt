// One record on one chip: how many pixels of its half it changes. Only what the record can change is drawn: nothing for a
// read, one segment for a data write, the half for a command that changes a register that is shown.
ghost use Rattle.std.specs.Prelude.{◌≡◌};
ghost use Rattle.frame.specs.Frame.{ram_column, segment_pixels};
ghost use Rattle.sed1520.specs.Laws.{Fit};
ghost use Rattle.visible.specs.Changes.{half_changed};
ghost use Rattle.visible.specs.Sight.{bits_differing, same_shown_registers, half_sight, half_sight_of};

use basics::refusal::Refusal;
use frame::segment::segment_pixels;
use sed1520::bus::{Record, cycle};
use sed1520::registers::Chip;

// How many of 32 pixels differ.
fn differing(one: u32, other: u32) -> u32
    ensures { result ≡ bits_differing one other }
{
    u32::count_ones(one ^ other)
}

// The pixels of a segment; none of one that is refused.
fn pixels_of(chip: Chip, ram: &[u8], n: usize) -> u32
    ensures { result ≡ (segment_pixels chip ram.now n).pixels }
{
    segment_pixels(chip, ram, n).unwrap_or(0)
}

// How many pixels of a half differ between two chips over the same RAM.
fn half_differing(before: Chip, after: Chip, ram: &[u8]) -> u32
    requires fit { Fit before ram.now }
    requires fit_2 { Fit after ram.now }
    ensures { result ≡ half_changed before ram.now after ram.now }
{
    (0..Chip::SEGMENTS)
        .map(|n| differing(pixels_of(before, ram, n), pixels_of(after, ram, n)))
        .sum()
}

// Whether two chips are alike in the registers that are shown.
#[tactic(auto, unfolding(crate::specs::Sight::same_shown_registers))]
fn same_shown_registers(one: Chip, other: Chip) -> bool
    ensures { result ≡ same_shown_registers one other }
{
    one.display_on == other.display_on
        && one.static_on == other.static_on
        && one.duty_32 == other.duty_32
        && one.reverse == other.reverse
        && one.start_line == other.start_line
}

// The segment that shows the column at which a chip stands; past the last segment the column is not shown, and a segment
// there is refused with no pixels. Past a page's last column nothing is written, and any number will do.
fn segment_at(chip: Chip) -> usize
    ensures { result ≡ ram_column chip chip.column }
{
    let column = chip.column as usize;
    if chip.reverse {
        (Chip::PAGE_WIDTH - 1).saturating_sub(column)
    } else {
        column
    }
}

// A data write: it can change the segment of its column.
fn watch_write(bus: Record, chip: &mut Chip, ram: &mut [u8]) -> Result<u32, Refusal>
    requires fit { Fit chip.old ram.old }
    requires lines_value { bus.lines ≡ 3 }
    ensures { half_sight result chip.new ram.new ≡ half_sight_of bus chip.old ram.old }
{
    let n = segment_at(*chip);
    let before = pixels_of(*chip, ram, n);
    *chip = cycle(bus, *chip, ram)?.chip;
    let after = pixels_of(*chip, ram, n);
    Ok(differing(before, after))
}

// A command: it can change the half only where it changes a register that is shown.
fn watch_command(bus: Record, chip: &mut Chip, ram: &mut [u8]) -> Result<u32, Refusal>
    requires fit { Fit chip.old ram.old }
    requires lines_value { bus.lines ≡ 2 }
    ensures { half_sight result chip.new ram.new ≡ half_sight_of bus chip.old ram.old }
{
    let before = *chip;
    *chip = cycle(bus, before, ram)?.chip;
    if same_shown_registers(before, *chip) {
        return Ok(0);
    }
    Ok(half_differing(before, *chip, ram))
}

// Any record to a chip and its part of the image, which both go on to what follows; gives how many pixels of the half differ
// from before it.
pub(crate) fn watch_half(bus: Record, chip: &mut Chip, ram: &mut [u8]) -> Result<u32, Refusal>
    requires { Fit chip.old ram.old }
    ensures { half_sight result chip.new ram.new ≡ half_sight_of bus chip.old ram.old }
{
    // The lines alone say what can change; what the record does is decided in the cycle.
    match bus.lines {
        3 => watch_write(bus, chip, ram),
        2 => watch_command(bus, chip, ram),
        _ => {
            *chip = cycle(bus, *chip, ram)?.chip;
            Ok(0)
        }
    }
}
