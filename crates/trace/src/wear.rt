// Wear: how often each RAM byte of both chips was stored to, a count each. The functions take wear of any length; in wear of
// length 0 nothing is counted.
ghost use Rattle.std.specs.Prelude.{◌*◌, ◌/◌, ◌≤◌, ◌≡◌, length, replicate};
ghost use Rattle.panel.specs.Chips.{BothPass};
ghost use Rattle.panel.specs.Step.{run_chips};
ghost use Rattle.panel.specs.Trace.{trace_limit};
ghost use Rattle.sed1520.specs.Replies.{in_place};
ghost use Rattle.trace.specs.Wear.{AtMost, raised, worn, replies_together};

use panel::step::{run_of_tested_chips, start_of};
use sed1520::chip_bytes::{CHIP_BYTES, COLUMN_BYTE, PAGE_BYTE};
use sed1520::memory::image_index;
use sed1520::tally::Tally;

// Every count 0.
pub(crate) fn clear(wear: &mut [u32])
    ensures { wear.new ≡ replicate (length wear.old) 0 }
{
    wear.fill(0);
}

// One store more for each byte from one place up to another, which is not counted.
fn count_stores(wear: &mut [u32], from: usize, to: usize)
    requires { AtMost 4294967294 wear.old }
    ensures { wear.new ≡ raised wear.old from to }
{
    let end = to.min(wear.len());
    for count in &mut wear[from.min(end)..end] {
        *count += 1;
    }
}

// The records that a trace begins with and that run together, and the bytes that they stored to counted. Data writes to one
// chip store to the bytes up to where the next would, as many as they moved the column on; other records move it by none.
pub(crate) fn run_counting(
    chips: &mut [u8],
    ram: &mut [u8],
    trace: &[u8],
    answers: &mut [u8],
    wear: &mut [u32],
) -> Tally
    requires both_pass { BothPass chips.old ram.old }
    requires trace_in_bounds { 2 * (length trace.now / 4) ≤ length answers.old }
    requires in_bounds { 4 ≤ length trace.now }
    requires at_most { AtMost 4294967294 wear.old }
    ensures ran { in_place result chips.new ram.new answers.new
        ≡ run_chips chips.old ram.old trace.now answers.old }
    ensures wear { wear.new
        ≡ worn wear.old (replies_together chips.old ram.old trace.now) }
{
    let went = run_of_tested_chips(chips, ram, trace, answers);
    let tally = went.tally;
    if wear.len() == 0 {
        return tally;
    }
    if went.moved == 0 {
        return tally;
    }
    let chip = trace[1];
    let own = start_of(chip, CHIP_BYTES);
    let to = image_index(chip, chips[own + PAGE_BYTE], chips[own + COLUMN_BYTE]);
    count_stores(wear, to - (went.moved as usize), to);
    tally
}
