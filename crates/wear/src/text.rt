// The lines of the wear, put into a text, as much of them as there is room for.
ghost use Rattle.std.specs.Prelude.{◌≡◌, length};
ghost use Rattle.basics.specs.Counts.{total};
ghost use Rattle.panel.specs.Panel.{image_length};
ghost use Rattle.console.specs.Puts.{Puts};
ghost use Rattle.wear.specs.Text.{count_at, page_counts, page_line, chip_lines, sum_line, wear_lines};

use console::text::{Text, refused_before};
use sed1520::memory::image_index;
use sed1520::registers::Chip;

// The count of a chip's page and column, or 0 where there is none.
fn count_at(wear: &[u32], chip: u8, page: u8, column: u8) -> u32
    ensures { result ≡ count_at wear.now chip page column }
{
    let at = image_index(chip, page, column);
    if at < wear.len() { wear[at] } else { 0 }
}

// The counts of a chip's page, each after a space.
fn put_counts(text: &mut Text, wear: &[u32], chip: u8, page: u8)
    ensures { Puts text.old (page_counts wear.now chip page) text.new }
{
    for column in 0..Chip::COLUMN_STOP {
        text.next_number(count_at(wear, chip, page, column) as u64);
    }
}

// The line of a chip's page.
fn put_page(text: &mut Text, wear: &[u32], chip: u8, page: u8)
    ensures { Puts text.old (page_line wear.now chip page) text.new }
{
    text.bytes(b"wear");
    text.next_number(chip as u64);
    text.next_number(page as u64);
    put_counts(text, wear, chip, page);
    text.byte(b'\n');
}

// The lines of a chip's four pages.
fn put_chip(text: &mut Text, wear: &[u32], chip: u8)
    ensures { Puts text.old (chip_lines wear.now chip) text.new }
{
    for page in 0..4 {
        put_page(text, wear, chip, page);
    }
}

// The sum of all counts.
fn sum_of(wear: &[u32]) -> u64
    requires { length wear.now ≡ image_length }
    ensures { result ≡ total wear.now }
{
    wear.iter().map(|&count| u64::from(count)).sum()
}

// The line of the sum.
fn put_sum(text: &mut Text, wear: &[u32])
    requires { length wear.now ≡ image_length }
    ensures { Puts text.old (sum_line wear.now) text.new }
{
    text.bytes(b"sum");
    text.next_number(sum_of(wear));
    text.byte(b'\n');
}

// The lines of the wear that a replay left, by its number.
pub(crate) fn put_wear(text: &mut Text, wear: &[u32], number: u8)
    requires { length wear.now ≡ image_length }
    ensures { Puts text.old (wear_lines number wear.now) text.new }
{
    if refused_before(number) {
        return;
    }
    put_chip(text, wear, 0);
    put_chip(text, wear, 1);
    put_sum(text, wear);
}
