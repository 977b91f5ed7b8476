// One record on the panel: it goes to the chip that it names, and changes nothing that the other shows.
ghost use Rattle.std.specs.Prelude.{◌≡◌};
ghost use Rattle.panel.specs.Panel.{as_panel, Whole};
ghost use Rattle.visible.specs.Sight.{watched, sight_of};

use crate::half::watch_half;
use basics::refusal::Refusal;
use panel::chips::Chips;
use sed1520::bus::Record;
use sed1520::registers::Chip;

// How many pixels of each half differ from before a record.
#[derive(Clone, Copy, Debug, PartialEq, Eq)]
pub(crate) struct Pixels {
    pub left: u32,
    pub right: u32,
}

// A record to the chip that it names, with that chip's part of the image; both go on to what follows.
pub(crate) fn watch(bus: Record, chips: &mut Chips, ram: &mut [u8]) -> Result<Pixels, Refusal>
    requires { Whole (as_panel chips.old.left chips.old.right ram.old) }
    ensures { watched result chips.new ram.new ≡ sight_of (as_panel chips.old.left chips.old.right ram.old) bus }
{
    if bus.chip == 0 {
        let left = watch_half(bus, &mut chips.left, &mut ram[..Chip::RAM_WIDTH])?;
        return Ok(Pixels { left, right: 0 });
    }
    let right = watch_half(bus, &mut chips.right, &mut ram[Chip::RAM_WIDTH..])?;
    Ok(Pixels { left: 0, right })
}
