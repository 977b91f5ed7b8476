// Where a byte stands in a frame or in a picture.
ghost use Rattle.std.specs.Prelude.{◌≡◌};
ghost use Rattle.frame.specs.Frame.{frame_place};

use sed1520::registers::Chip;

// The place of the byte of a chip's segment n in band r.
#[tactic(auto, using(std::proofs::lemmas::Bool::Decides::nat_tests), unfolding(crate::specs::Frame::frame_place))]
pub fn place(chip: u8, n: u8, r: u8) -> usize
    ensures { result ≡ frame_place chip n r }
{
    let first = if chip == 0 { 0 } else { Chip::SEGMENTS };
    first + (n as usize) + Chip::PANEL_WIDTH * (r as usize)
}
