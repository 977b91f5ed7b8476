// The records that a sparing repaint sends to a chip's hidden pages: those for the columns that differ from the picture,
// written to the front of a lent part of the output buffer.
ghost use Rattle.std.specs.Prelude.{◌+◌, ◌-◌, ◌*◌, ◌<◌, ◌≤◌, ◌≡◌, length};
ghost use Rattle.basics.specs.Verdict.{result_of};
ghost use Rattle.sed1520.specs.Memory.{ram_length};
ghost use Rattle.frame.specs.Frame.{segments};
ghost use Rattle.repaint.specs.Repaint.{writes_length, page_length, picture_length};
ghost use Rattle.repaint.specs.Sparing.{differs, chosen_columns, chosen_page, chip_records, put_front, next_column, run_writes};

use crate::chip_plan::{HiddenPage, lowest_column};
use sed1520::bus::RECORD_BYTES;
use sed1520::memory::index;
use sed1520::registers::Chip;

// A hidden page, and the display RAM of its chip. No two are compared or printed, so no more is derived.
#[derive(Clone, Copy)]
struct HeldPage<'p, 'r> {
    page: HiddenPage<'p>,
    ram: &'r [u8],
    ghost ram_len: { length ram.now ≡ ram_length },
}

impl HeldPage<'_, '_> {
    // Whether the byte of shown column j differs from the picture's.
    fn differs(&self, j: usize) -> bool
        requires { j < segments }
        ensures { let page = self.now.page in
            result ≡ differs page.chip page.which self.now.ram.now page.picture.now page.band j }
    {
        let column = lowest_column(self.page.chip) + (j as u8);
        self.ram[index(self.page.number(), column)] != self.page.byte_of(j)
    }

    // The first column that differs, of those from `from` on, or the one past the last.
    fn next_changed(&self, from: usize) -> usize
        ensures { let page = self.now.page in
            result
            ≡ next_column (differs page.chip page.which self.now.ram.now page.picture.now page.band) from (segments - from) }
    {
        let held = *self;
        for j in from..Chip::SEGMENTS {
            if held.differs(j) {
                return j;
            }
        }
        from.max(Chip::SEGMENTS)
    }

    // The data writes of the run that begins at `from`, up to the first column that does not differ; gives how many bytes
    // they are.
    fn put_run_writes(&self, from: usize, output: &mut [u8]) -> usize
        requires from_le_segments { from ≤ segments }
        requires from_in_bounds { 4 * (segments - from) ≤ length output.old }
        ensures { let page = self.now.page in
            let test = differs page.chip page.which self.now.ram.now page.picture.now page.band in
            result_of result output.new
            ≡ put_front (run_writes page.chip page.which page.picture.now page.band test from) output.old }
    {
        // A copy, which no write to the output can change: the loop then keeps it in registers.
        let held = *self;
        let mut bytes = 0;
        for column in from..Chip::SEGMENTS {
            if !held.differs(column) {
                return bytes;
            }
            held.page.put_write(column, &mut output[bytes..]);
            bytes += RECORD_BYTES;
        }
        bytes
    }

    // The records of the columns that differ, run by run, where the first is known; gives how many bytes they are.
    fn put_columns(&self, first: usize, output: &mut [u8]) -> usize
        requires first_value { let page = self.now.page in
            first ≡ next_column (differs page.chip page.which self.now.ram.now page.picture.now page.band) 0 segments }
        requires writes_length_in_bounds { 4 + writes_length ≤ length output.old }
        ensures { let page = self.now.page in
            let test = differs page.chip page.which self.now.ram.now page.picture.now page.band in
            result_of result output.new
            ≡ put_front (chosen_columns page.chip page.which page.picture.now page.band test 0 segments) output.old }
    {
        let mut at = 0;
        let mut run = first;
        // A turn takes a whole run, so the loop moves on by what it gave.
        while run < Chip::SEGMENTS {
            self.page.put_column_set(run, &mut output[at..]);
            at = at + RECORD_BYTES;
            let bytes = self.put_run_writes(run, &mut output[at..]);
            at = at + bytes;
            run = self.next_changed(run + bytes / RECORD_BYTES);
        }
        at
    }

    // Nothing where no column differs, else the page set and the columns that do; gives how many bytes it wrote.
    #[tactic(auto, using(crate::proofs::Bytes::page_unchanged))]
    fn put_changed(&self, output: &mut [u8]) -> usize
        requires { page_length ≤ length output.old }
        ensures { let page = self.now.page in
            let test = differs page.chip page.which self.now.ram.now page.picture.now page.band in
            result_of result output.new
            ≡ put_front (chosen_page page.chip page.which page.picture.now page.band test) output.old }
    {
        let first = self.next_changed(0);
        if Chip::SEGMENTS <= first {
            return 0;
        }
        self.page.put_page_set(output);
        RECORD_BYTES + self.put_columns(first, &mut output[RECORD_BYTES..])
    }
}

// Both hidden pages of a chip; gives how many bytes it wrote.
pub(crate) fn put_changed_pages(
    chip: Chip,
    which: u8,
    ram: &[u8],
    picture: &[u8],
    output: &mut [u8],
) -> usize
    requires ram_len { length ram.now ≡ ram_length }
    requires picture_len { length picture.now ≡ picture_length }
    requires page_length_in_bounds { 2 * page_length ≤ length output.old }
    ensures { result_of result output.new
        ≡ put_front (chip_records chip which ram.now picture.now) output.old }
{
    let lower = HiddenPage {
        chip,
        which,
        picture,
        band: 0,
    };
    let upper = HiddenPage {
        chip,
        which,
        picture,
        band: 1,
    };
    let first = HeldPage { page: lower, ram }.put_changed(output);
    first + HeldPage { page: upper, ram }.put_changed(&mut output[first..])
}
