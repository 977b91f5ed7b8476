// A chip's display RAM: where the byte of a page and a column stands, and that byte read and written.
ghost use Rattle.std.specs.Prelude.{◌≡◌};
ghost use Rattle.sed1520.specs.Memory.{ram_index, image_index, byte_at, byte_set};

use crate::registers::Chip;

// The place of the byte.
#[tactic(auto, unfolding(crate::specs::Memory::ram_index))]
pub fn index(page: u8, column: u8) -> usize
    ensures { result ≡ ram_index page column }
{
    Chip::PAGE_WIDTH * (page as usize) + (column as usize)
}

// Its place in the RAM image of both chips.
pub fn image_index(chip: u8, page: u8, column: u8) -> usize
    ensures { result ≡ image_index chip page column }
{
    Chip::RAM_WIDTH * (chip as usize) + index(page, column)
}

// The byte of a page and a column, or 0 where the RAM has none there.
pub(crate) fn load(ram: &[u8], page: u8, column: u8) -> u8
    ensures { result ≡ byte_at ram.now page column }
{
    ram.get(index(page, column)).copied().unwrap_or(0)
}

// Writes the byte, or nothing where the RAM has none there.
pub(crate) fn store(ram: &mut [u8], page: u8, column: u8, byte: u8)
    ensures { ram.new ≡ byte_set ram.old page column byte }
{
    let at = index(page, column);
    if at < ram.len() {
        ram[at] = byte;
    }
}
