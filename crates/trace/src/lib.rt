// The replay of a recorded bus trace on two chips, whole or in parts: what they answer to each record and what they hold
// afterwards.

#![tactic(auto)]

pub mod feed;
pub mod held_feed;
pub mod progress;
mod wear;

ghost use Rattle.std.specs.Prelude.{◌*◌, ◌/◌, ◌≤◌, ◌≡◌, length};
ghost use Rattle.panel.specs.Trace.{trace_limit, trace_run};
ghost use Rattle.panel.specs.Chips.{panel_in, BothPass};
ghost use Rattle.panel.specs.Panel.{as_panel};
ghost use Rattle.sed1520.specs.Replies.{in_place};
ghost use Rattle.trace.specs.Replay.{replay_outcome, ended_bytes, sizes_wrong, over_bytes, replay_in_place};
ghost use Rattle.trace.specs.Wear.{with_wear, replay_with_wear, replay_wear, AtMost, worn};

use crate::wear::{clear, run_counting};
use basics::refusal::Refusal;
use basics::verdict::Refused;
use panel::chips::{CHIPS_BYTES, Chips, IMAGE_BYTES, chips_bytes, chips_in};
use panel::trace::trace_verdict;
use sed1520::bus::RECORD_BYTES;
use sed1520::chip_bytes::{CHIP_BYTES, bytes_pass};
use sed1520::tally::{ANSWER_BYTES, Tally};

// What a replay gives back beside what it was lent: the number and its place with both counts, and both chips.
#[derive(Clone, Copy, Debug, PartialEq, Eq)]
pub struct Replayed {
    pub tally: Tally,
    pub chips: Chips,
}

// The records one after the other on chip bytes that number 2 lets pass, up to the first that is refused; each of their
// stores is added to the wear.
pub(crate) fn run(
    chips: &mut [u8],
    ram: &mut [u8],
    trace: &[u8],
    answers: &mut [u8],
    wear: &mut [u32],
) -> Tally
    requires both_pass { BothPass chips.old ram.old }
    requires trace_in_bounds { 2 * (length trace.now / 4) ≤ length answers.old }
    requires trace_len_bound { length trace.now ≤ trace_limit }
    requires at_most { AtMost trace_limit wear.old }
    ensures ran { in_place result chips.new ram.new answers.new
        ≡ over_bytes chips.old
        (ended_bytes (panel_in chips.old ram.old) trace.now answers.old) }
    ensures wear { wear.new
        ≡ worn wear.old (trace_run (panel_in chips.old ram.old) trace.now).answers }
{
    let mut compared: u64 = 0;
    let mut differing: u64 = 0;
    let mut at = 0;
    let count = trace.len() / RECORD_BYTES;
    // One call takes as many records as run together, so the loop moves on by what it gave.
    while at < count {
        let went = run_counting(
            chips,
            ram,
            &trace[RECORD_BYTES * at..],
            &mut answers[ANSWER_BYTES * at..],
            wear,
        );
        compared += went.compared;
        differing += went.differing;
        at += went.place as usize;
        if went.number != 0 {
            return Tally {
                number: went.number,
                place: at as u64,
                compared,
                differing,
            };
        }
    }
    Tally {
        number: 0,
        place: at as u64,
        compared,
        differing,
    }
}

// The replay of a trace on the chips' bytes, which are rewritten, and the image of both chips, two answer bytes for each
// record; refuses by number what does not fit.
pub fn replay_in_place(chips: &mut [u8], ram: &mut [u8], trace: &[u8], answers: &mut [u8]) -> Tally
    ensures { in_place result chips.new ram.new answers.new
        ≡ replay_in_place chips.old ram.old trace.now answers.old }
{
    replay_counting(chips, ram, trace, answers, &mut [])
}

// The same with what the records store to counted from 0, in wear of any length.
fn replay_counting(
    chips: &mut [u8],
    ram: &mut [u8],
    trace: &[u8],
    answers: &mut [u8],
    wear: &mut [u32],
) -> Tally
    ensures ran { in_place result chips.new ram.new answers.new
        ≡ replay_in_place chips.old ram.old trace.now answers.old }
    ensures wear { wear.new
        ≡ replay_wear chips.old ram.old trace.now answers.old wear.old }
{
    if chips.len() != CHIPS_BYTES {
        return Tally::refused(Refused::new(Refusal::WrongSize, 0));
    }
    let wrong = sizes_wrong(
        trace.len(),
        trace.len() / RECORD_BYTES,
        ram.len(),
        answers.len(),
    );
    let left_out = !bytes_pass(&chips[..CHIP_BYTES]);
    let right_out = !bytes_pass(&chips[CHIP_BYTES..]);
    if let Err(refused) = trace_verdict(wrong, left_out, right_out, trace.len()) {
        return Tally::refused(refused);
    }
    clear(wear);
    run(chips, ram, trace, answers, wear)
}

// The replay of a trace on two chips by value and the image of both, as over their bytes. It fills wear, 640 counts, from 0:
// how many of the records that were accepted stored to each byte of the image. Other than 640 counts are refused by number 1;
// numbers 1 to 3 leave them as they came.
pub fn replay(
    chips: Chips,
    ram: &mut [u8],
    trace: &[u8],
    answers: &mut [u8],
    wear: &mut [u32],
) -> Replayed
    ensures { with_wear (replay_outcome result ram.new answers.new) wear.new
        ≡ replay_with_wear (as_panel chips.left chips.right ram.old) trace.now answers.old wear.old }
{
    if wear.len() != IMAGE_BYTES {
        let tally = Tally::refused(Refused::new(Refusal::WrongSize, 0));
        return Replayed { tally, chips };
    }
    let mut bytes = chips_bytes(chips);
    let tally = replay_counting(&mut bytes, ram, trace, answers, wear);
    let chips = chips_in(&bytes);
    Replayed { tally, chips }
}

// Number 1 of a call that answers so many records.
pub(crate) fn sizes_wrong(bytes: usize, records: usize, ram: usize, answers: usize) -> bool
    ensures { result ≡ sizes_wrong bytes records ram answers }
{
    panel::trace::sizes_wrong(bytes, ram, answers / ANSWER_BYTES < records)
}
