// The records that a repaint sends to one chip, each written to the front of a lent part of the output buffer.
ghost use Rattle.std.specs.Prelude.{◌*◌, ◌<◌, ◌≤◌, ◌≡◌, ◌++◌, length, drop};
ghost use Rattle.basics.specs.Lists.{tabulated};
ghost use Rattle.sed1520.specs.Records.{record_bytes, records_bytes};
ghost use Rattle.repaint.specs.Repaint.{writes_length, page_length, hidden_page, lowest_column, column_segment, picture_byte};
ghost use Rattle.repaint.specs.Repaint.{picture_length, page_set, column_write, column_set, page_records, turned_line, turn};
ghost use Rattle.sed1520.specs.Laws.{sent};
ghost use Rattle.frame.specs.Frame.{segments};

use crate::PAGE_BYTES;
use frame::place::place;
use sed1520::commands::Opcode;
use sed1520::registers::Chip;

// The 4 bytes of a record.
fn put_record(lines: u8, which: u8, byte: u8, output: &mut [u8])
    requires { 4 ≤ length output.old }
    ensures { output.new ≡ record_bytes (sent lines which byte) ++ drop 4 output.old }
{
    output[0] = lines;
    output[1] = which;
    output[2] = byte;
    output[3] = 0;
}

// The lowest RAM column that a segment is shown from in reverse.
const LOWEST_IN_REVERSE: u8 = Chip::COLUMN_STOP - (Chip::SEGMENTS as u8);

// The lowest RAM column that a segment is shown from.
pub(crate) fn lowest_column(chip: Chip) -> u8
    ensures { result ≡ lowest_column chip }
{
    if chip.reverse { LOWEST_IN_REVERSE } else { 0 }
}

// The segment that is shown from shown column j: these are the 61 columns from the lowest on.
fn column_segment(chip: Chip, j: usize) -> usize
    requires { j < segments }
    ensures { result ≡ column_segment chip j }
{
    if chip.reverse {
        Chip::SEGMENTS - 1 - j
    } else {
        j
    }
}

// The start line turned from 0 to 16 or from 16 to 0.
fn turned_line(chip: Chip) -> u8
    ensures { result ≡ turned_line chip }
{
    if chip.start_line == 0 { 16 } else { 0 }
}

// The record that turns a chip's start line.
pub(crate) fn put_turn(chip: Chip, which: u8, output: &mut [u8])
    requires { 4 ≤ length output.old }
    ensures { output.new ≡ record_bytes (turn chip which) ++ drop 4 output.old }
{
    put_record(
        2,
        which,
        Opcode::StartLine.first() + turned_line(chip),
        output,
    );
}

// A hidden page of a chip, and the picture of which it takes a band. No two are compared or printed, so no more is derived.
#[derive(Clone, Copy)]
pub(crate) struct HiddenPage<'a> {
    pub chip: Chip,
    pub which: u8,
    pub picture: &'a [u8],
    pub band: u8,
    ghost picture_len: { length picture.now ≡ picture_length },
    ghost band_bound: { band < 2 },
}

impl HiddenPage<'_> {
    // Its number.
    pub(crate) fn number(&self) -> u8
        ensures { result ≡ hidden_page self.now.chip self.now.band }
    {
        if self.chip.start_line == 0 {
            2 + self.band
        } else {
            self.band
        }
    }

    // The picture's byte for shown column j.
    pub(crate) fn byte_of(&self, j: usize) -> u8
        requires { j < segments }
        ensures { result ≡ picture_byte self.now.picture.now self.now.which (column_segment self.now.chip j) self.now.band }
    {
        self.picture[place(self.which, column_segment(self.chip, j) as u8, self.band)]
    }

    // The record that sets it.
    pub(crate) fn put_page_set(&self, output: &mut [u8])
        requires { 4 ≤ length output.old }
        ensures { output.new ≡ record_bytes (page_set self.now.chip self.now.which self.now.band) ++ drop 4 output.old }
    {
        put_record(2, self.which, Opcode::Page.first() + self.number(), output);
    }

    // The record that sets shown column j.
    pub(crate) fn put_column_set(&self, j: usize, output: &mut [u8])
        requires j_lt_segments { j < segments }
        requires in_bounds { 4 ≤ length output.old }
        ensures { output.new ≡ record_bytes (column_set self.now.chip self.now.which j) ++ drop 4 output.old }
    {
        put_record(
            2,
            self.which,
            Opcode::Column.first() + (lowest_column(self.chip) + (j as u8)),
            output,
        );
    }

    // The data write to shown column j.
    pub(crate) fn put_write(&self, j: usize, output: &mut [u8])
        requires j_lt_segments { j < segments }
        requires in_bounds { 4 ≤ length output.old }
        ensures { output.new
            ≡ record_bytes (column_write self.now.chip self.now.which self.now.picture.now self.now.band j)
            ++ drop 4 output.old }
    {
        put_record(3, self.which, self.byte_of(j), output);
    }

    // The data writes of its 61 columns.
    fn put_writes(&self, output: &mut [u8])
        requires { writes_length ≤ length output.old }
        ensures { output.new
            ≡ records_bytes (tabulated (column_write self.now.chip self.now.which self.now.picture.now self.now.band) 0 segments)
            ++ drop writes_length output.old }
    {
        for j in 0..Chip::SEGMENTS {
            self.put_write(j, &mut output[4 * j..]);
        }
    }

    // All its records: its number, its lowest column, its bytes.
    fn put(&self, output: &mut [u8])
        requires { page_length ≤ length output.old }
        ensures { output.new
            ≡ records_bytes (page_records self.now.chip self.now.which self.now.picture.now self.now.band)
            ++ drop page_length output.old }
    {
        self.put_page_set(output);
        self.put_column_set(0, &mut output[4..]);
        self.put_writes(&mut output[8..]);
    }
}

// Both hidden pages of a chip.
pub(crate) fn put_pages(chip: Chip, which: u8, picture: &[u8], output: &mut [u8])
    requires picture_len { length picture.now ≡ picture_length }
    requires page_length_in_bounds { 2 * page_length ≤ length output.old }
    ensures { output.new
        ≡ records_bytes (page_records chip which picture.now 0 ++ page_records chip which picture.now 1)
        ++ drop (2 * page_length) output.old }
{
    let lower = HiddenPage {
        chip,
        which,
        picture,
        band: 0,
    };
    let upper = HiddenPage {
        chip,
        which,
        picture,
        band: 1,
    };
    lower.put(output);
    upper.put(&mut output[PAGE_BYTES..]);
}
