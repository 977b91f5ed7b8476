// A feed: a trace taken in parts, as a recorder hands them over. A record that the end of a part cuts is kept over and
// goes on with the next part.
ghost use Rattle.std.specs.Prelude.{◌+◌, ◌*◌, ◌/◌, ◌≤◌, ◌≡◌, ◌++◌, length};
ghost use Rattle.panel.specs.Trace.{trace_limit, trace_run};
ghost use Rattle.basics.specs.Choice.{if};
ghost use Rattle.panel.specs.Chips.{chips_length, panel_in, BothPass};
ghost use Rattle.basics.specs.Refusals.{refused_or};
ghost use Rattle.basics.specs.Verdict.{verdict};
ghost use Rattle.trace.specs.Replay.{ended_bytes, over_bytes};
ghost use Rattle.sed1520.specs.Replies.{in_place};
ghost use Rattle.trace.specs.Feed.{joined_to, completed_by, too_many, progress_wrong, state_verdict, part_verdict, fed_with};
ghost use Rattle.trace.specs.Feed.{open_of, unless_stopped, part_outcome, open_part, stopped_with, open_close, close_of};
ghost use Rattle.trace.specs.FeedInPlace.{fed_in_place, feed_in, part_over_bytes, part_in_place};
ghost use Rattle.trace.specs.Wear.{stores_in, with_wear, part_with_wear, open_part_wear, part_wear, AtMost, worn};

use crate::progress::{Ending, Progress};
use crate::wear::clear;
use crate::{run, sizes_wrong};
use basics::refusal::Refusal;
use basics::verdict::Refused;
use panel::chips::{CHIPS_BYTES, Chips, IMAGE_BYTES, chips_bytes, chips_in};
use sed1520::bus::RECORD_BYTES;
use sed1520::chip_bytes::{CHIP_BYTES, bytes_pass};
use sed1520::tally::{ANSWER_BYTES, Tally};

// The most records that a feed may take.
pub const MAX_RECORDS: u64 = 4294967295;

// Both chips and what was taken so far.
#[derive(Clone, Copy, Debug, PartialEq, Eq)]
pub struct Feed {
    pub chips: Chips,
    pub progress: Progress,
}

// What each call gives back: number, place and the counts so far; and the next feed.
#[derive(Clone, Copy, Debug, PartialEq, Eq)]
pub struct Fed {
    pub tally: Tally,
    pub feed: Feed,
}

// What a part given over chip bytes, which are rewritten, gives back: number, place and counts; and the next progress.
#[derive(Clone, Copy, Debug, PartialEq, Eq)]
pub struct FedInPlace {
    pub tally: Tally,
    pub progress: Progress,
}

// How many records a part completes, the bytes kept over included.
fn completed(kept: u8, part: usize) -> usize
    ensures { result ≡ completed_by kept part }
{
    part / RECORD_BYTES + ((kept as usize) + part % RECORD_BYTES) / RECORD_BYTES
}

// Number 13: more records in all than a feed may take.
fn too_many(records: u32, more: usize) -> bool
    requires { more ≤ trace_limit }
    ensures { result ≡ too_many records more }
{
    (records as u64) + (more as u64) > MAX_RECORDS
}

// Number 2 at place 3.
fn progress_verdict(progress: Progress) -> Result<(), Refused>
    ensures { refused_or (verdict 0 0) result ≡ if (progress_wrong progress) (verdict 2 3) (verdict 0 0) }
{
    if progress.wrong() {
        return Err(Refused::new(Refusal::StateOutOfRange, 3));
    }
    Ok(())
}

// Number 2: the left chip, the right one, then place 3.
#[tactic(auto, unfolding(crate::specs::Feed::state_verdict))]
fn state_verdict(left_out: bool, right_out: bool, progress: Progress) -> Result<(), Refused>
    ensures { refused_or (verdict 0 0) result ≡ state_verdict left_out right_out progress }
{
    Refusal::StateOutOfRange.of_either(left_out, right_out)?;
    progress_verdict(progress)
}

// Numbers 1, 13 and 2 of a part.
#[tactic(auto, unfolding(crate::specs::Feed::part_verdict, crate::specs::Feed::state_verdict))]
fn part_verdict(
    left_out: bool,
    right_out: bool,
    progress: Progress,
    ram: usize,
    part: usize,
    answers: usize,
) -> Result<(), Refused>
    ensures { refused_or (verdict 0 0) result ≡ part_verdict left_out right_out progress ram part answers }
{
    let more = completed(progress.kept, part);
    if sizes_wrong(part, more, ram, answers) {
        return Err(Refused::new(Refusal::WrongSize, 0));
    }
    if too_many(progress.records, more) {
        return Err(Refused::new(Refusal::TooManyRecords, 0));
    }
    state_verdict(left_out, right_out, progress)
}

// The records that a part completes, the first of them with the bytes kept over, and what they store to counted from 0.
fn run_part(
    chips: &mut [u8],
    progress: Progress,
    ram: &mut [u8],
    part: &[u8],
    answers: &mut [u8],
    wear: &mut [u32],
) -> Tally
    requires both_pass { BothPass chips.old ram.old }
    requires kept_bound { progress.kept ≤ 3 }
    requires part_len_bound { length part.now ≤ trace_limit }
    requires part_in_bounds { 2 * completed_by progress.kept (length part.now) ≤ length answers.old }
    ensures ran { in_place result chips.new ram.new answers.new
        ≡ over_bytes chips.old
        (ended_bytes (panel_in chips.old ram.old) (joined_to progress part.now) answers.old) }
    ensures wear { wear.new
        ≡ stores_in (trace_run (panel_in chips.old ram.old) (joined_to progress part.now)).answers
        (length wear.old) }
{
    clear(wear);
    let kept = progress.kept as usize;
    if kept == 0 {
        return run(chips, ram, part, answers, wear);
    }
    if kept + part.len() < RECORD_BYTES {
        return Tally::nothing_run(0, 0);
    }
    let first = [
        progress.byte_at(part, 0),
        progress.byte_at(part, 1),
        progress.byte_at(part, 2),
        progress.byte_at(part, 3),
    ];
    run_both(
        chips,
        ram,
        &first,
        &part[RECORD_BYTES - kept..],
        answers,
        wear,
    )
}

// A record and a trace behind it, as one trace.
fn run_both(
    chips: &mut [u8],
    ram: &mut [u8],
    first: &[u8],
    rest: &[u8],
    answers: &mut [u8],
    wear: &mut [u32],
) -> Tally
    requires both_pass { BothPass chips.old ram.old }
    requires first_len { length first.now ≡ 4 }
    requires rest_len_bound { length rest.now ≤ trace_limit }
    requires rest_in_bounds { 2 + 2 * (length rest.now / 4) ≤ length answers.old }
    requires at_most { AtMost 0 wear.old }
    ensures ran { in_place result chips.new ram.new answers.new
        ≡ over_bytes chips.old
        (ended_bytes (panel_in chips.old ram.old) (first.now ++ rest.now) answers.old) }
    ensures wear { wear.new
        ≡ worn wear.old
        (trace_run (panel_in chips.old ram.old) (first.now ++ rest.now)).answers }
{
    let begun = run(chips, ram, first, answers, wear);
    if begun.number != 0 {
        return begun;
    }
    let next = run(chips, ram, rest, &mut answers[ANSWER_BYTES..], wear);
    Tally {
        number: next.number,
        place: begun.place + next.place,
        compared: begun.compared + next.compared,
        differing: begun.differing + next.differing,
    }
}

// A part given to a feed whose chips lie as bytes, which are rewritten, and the image of both chips: two answer bytes for
// each record that the part completes.
pub fn part_in_place(
    chips: &mut [u8],
    progress: Progress,
    ram: &mut [u8],
    part: &[u8],
    answers: &mut [u8],
) -> FedInPlace
    ensures { in_place result chips.new ram.new answers.new
        ≡ part_in_place chips.old progress ram.old part.now answers.old }
{
    part_counting(chips, progress, ram, part, answers, &mut [])
}

// The same with what the part's records store to counted from 0, in wear of any length.
fn part_counting(
    chips: &mut [u8],
    progress: Progress,
    ram: &mut [u8],
    part: &[u8],
    answers: &mut [u8],
    wear: &mut [u32],
) -> FedInPlace
    ensures ran { in_place result chips.new ram.new answers.new
        ≡ part_in_place chips.old progress ram.old part.now answers.old }
    ensures wear { wear.new
        ≡ part_wear chips.old progress ram.old part.now answers.old wear.old }
{
    match progress.ending {
        Ending::Stopped(number, place) => reported_in_place(progress, number, place as u64),
        Ending::Open => {
            if chips.len() != CHIPS_BYTES {
                return reported_in_place(progress, Refusal::WrongSize.number(), 0);
            }
            open_part(chips, progress, ram, part, answers, wear)
        }
    }
}

// A number and its place with the counts so far, and the progress that holds them.
fn reported_in_place(progress: Progress, number: u8, place: u64) -> FedInPlace
    ensures { result ≡ fed_in_place progress number place }
{
    let tally = progress.so_far(number, place);
    FedInPlace { tally, progress }
}

// A part given to a feed that is open: numbers 1, 13 and 2, then the records.
fn open_part(
    chips: &mut [u8],
    progress: Progress,
    ram: &mut [u8],
    part: &[u8],
    answers: &mut [u8],
    wear: &mut [u32],
) -> FedInPlace
    requires { length chips.old ≡ chips_length }
    ensures ran { in_place result chips.new ram.new answers.new
        ≡ part_over_bytes chips.old
        (open_part (feed_in chips.old progress) ram.old part.now answers.old) }
    ensures wear { wear.new
        ≡ open_part_wear (feed_in chips.old progress) ram.old part.now answers.old wear.old }
{
    let left_out = !bytes_pass(&chips[..CHIP_BYTES]);
    let right_out = !bytes_pass(&chips[CHIP_BYTES..]);
    let verdict = part_verdict(
        left_out,
        right_out,
        progress,
        ram.len(),
        part.len(),
        answers.len(),
    );
    if let Err(refused) = verdict {
        return reported_in_place(progress, refused.refusal.number(), refused.place);
    }
    let tally = run_part(chips, progress, ram, part, answers, wear);
    let next = progress.moved_on(part, tally);
    reported_in_place(next, tally.number, next.records as u64)
}

impl Feed {
    // A feed on two chips; stopped with number 2 where one of them is out of range.
    pub fn open(chips: Chips) -> Fed
        ensures { result ≡ open_of chips.left chips.right }
    {
        let progress = Progress::begun(Ending::Open);
        let verdict = state_verdict(!chips.left.in_range(), !chips.right.in_range(), progress);
        if let Err(refused) = verdict {
            let number = refused.refusal.number();
            let progress = Progress::begun(Ending::Stopped(number, refused.place as u32));
            return reported(Feed { chips, progress }, number, refused.place);
        }
        reported(Feed { chips, progress }, 0, 0)
    }

    // The next part of the trace, over the image of both chips: two answer bytes for each record that it completes. It fills
    // wear, 640 counts, from 0: how many of these records, accepted, stored to each byte of the image. Other than 640 counts
    // are refused by number 1; numbers 1, 13 and 2 and a stopped feed leave them as they came.
    pub fn part(self, ram: &mut [u8], part: &[u8], answers: &mut [u8], wear: &mut [u32]) -> Fed
        ensures { with_wear (part_outcome result ram.new answers.new) wear.new
            ≡ part_with_wear self ram.old part.now answers.old wear.old }
    {
        if wear.len() != IMAGE_BYTES {
            return self.wrong_wear();
        }
        let mut bytes = chips_bytes(self.chips);
        let went = part_counting(&mut bytes, self.progress, ram, part, answers, wear);
        let chips = chips_in(&bytes);
        let feed = Feed {
            chips,
            progress: went.progress,
        };
        Fed {
            tally: went.tally,
            feed,
        }
    }

    // A part that comes with wear that is not 640 counts: a stopped feed repeats, an open one refuses by number 1.
    fn wrong_wear(self) -> Fed
        ensures { result ≡ unless_stopped self.progress.ending (fed_with self) (fed_with self 1 0) }
    {
        match self.progress.ending {
            Ending::Stopped(number, at) => reported(self, number, at as u64),
            Ending::Open => reported(self, Refusal::WrongSize.number(), 0),
        }
    }

    // The end of the trace: number 3 where bytes are kept over. The feed is then stopped.
    #[tactic(auto, unfolding(crate::specs::Feed::close_of))]
    pub fn close(self) -> Fed
        ensures { result ≡ close_of self }
    {
        match self.progress.ending {
            Ending::Stopped(number, place) => reported(self, number, place as u64),
            Ending::Open => open_close(self),
        }
    }
}

// The closing of a feed that is open: number 2, then 3 or 0.
fn open_close(feed: Feed) -> Fed
    ensures { result ≡ open_close feed }
{
    let chips = feed.chips;
    let verdict = state_verdict(
        !chips.left.in_range(),
        !chips.right.in_range(),
        feed.progress,
    );
    if let Err(refused) = verdict {
        return reported(feed, refused.refusal.number(), refused.place);
    }
    if feed.progress.kept == 0 {
        return stopped(feed, 0);
    }
    stopped(feed, Refusal::CutRecord.number())
}

// A feed stopped with a number at the records since its opening.
fn stopped(feed: Feed, number: u8) -> Fed
    ensures { result ≡ stopped_with feed number }
{
    let records = feed.progress.records;
    let progress = feed.progress.stopped(number, records);
    reported(Feed { progress, ..feed }, number, records as u64)
}

// A feed with a number, its place and the feed's counts so far.
fn reported(feed: Feed, number: u8, place: u64) -> Fed
    ensures { result ≡ fed_with feed number place }
{
    let tally = feed.progress.so_far(number, place);
    Fed { tally, feed }
}
