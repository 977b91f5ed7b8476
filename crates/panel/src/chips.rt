// Both chips, by value and as 24 bytes.
ghost use Rattle.std.specs.Prelude.{◌≡◌};
ghost use Rattle.basics.specs.Refusals.{by_chip};
ghost use Rattle.basics.specs.declared.refusal.Refusal.TheVariants.{StateOutOfRange};
ghost use Rattle.panel.specs.Chips.{chips_bytes, chips_in};
ghost use Rattle.sed1520.specs.Chip.{out_of_range};

use basics::refusal::Refusal;
use basics::verdict::Refused;
use sed1520::chip_bytes::{CHIP_BYTES, chip_in, chip_out, no_chip};
use sed1520::registers::Chip;

// The bytes of both chips.
pub const CHIPS_BYTES: usize = 2 * CHIP_BYTES;

// The RAM image of both chips.
pub const IMAGE_BYTES: usize = 2 * Chip::RAM_WIDTH;

// The bytes of both chips, left before right.
pub type BothChips = [u8; CHIPS_BYTES];

// Both chips.
#[derive(Clone, Copy, Debug, PartialEq, Eq)]
pub struct Chips {
    pub left: Chip,
    pub right: Chip,
}

impl Chips {
    // Refuses chips of which one is out of range.
    pub fn check_range(self) -> Result<(), Refused>
        ensures { result ≡ by_chip StateOutOfRange (out_of_range self.left) (out_of_range self.right) }
    {
        Refusal::StateOutOfRange.of_either(!self.left.in_range(), !self.right.in_range())
    }
}

// The chips of 24 bytes. Bytes that number 2 refuses give a chip that it refuses; so does any other length than 24, which is
// number 1's to refuse before. A chip so given is for testing and not for writing back.
#[tactic(auto, using(std::proofs::lemmas::Bool::Decides::nat_tests, basics::proofs::Parts::rest), unfolding(crate::specs::Chips::chips_in))]
pub fn chips_in(bytes: &[u8]) -> Chips
    ensures { result ≡ chips_in bytes.now }
{
    if bytes.len() != CHIPS_BYTES {
        return Chips {
            left: no_chip(),
            right: no_chip(),
        };
    }
    Chips {
        left: chip_in(&bytes[..CHIP_BYTES]),
        right: chip_in(&bytes[CHIP_BYTES..]),
    }
}

// Two chips as bytes, left before right.
pub fn chips_bytes(chips: Chips) -> BothChips
    ensures { result ≡ chips_bytes chips.left chips.right }
{
    let mut bytes = [0u8; CHIPS_BYTES];
    chip_out(chips.left, &mut bytes[..CHIP_BYTES]);
    chip_out(chips.right, &mut bytes[CHIP_BYTES..]);
    bytes
}
