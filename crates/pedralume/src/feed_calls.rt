// The feed's calls of the C side, on the feed's 48 bytes and one 64-bit number: number + 256 x place.
ghost use Rattle.std.specs.Prelude.{◌<◌, ◌≡◌, length};
ghost use Rattle.pedralume.specs.FeedBytes.{progress_length};
ghost use Rattle.pedralume.specs.FeedCall.{feed_packed, stays, kept_or, open_call, part_call, close_call};
ghost use Rattle.basics.specs.Verdict.{result_of};
ghost use Rattle.sed1520.specs.Replies.{in_place};

use crate::feed_bytes::{FEED_BYTES, progress_in, progress_out};
use basics::refusal::Refusal;
use panel::chips::{CHIPS_BYTES, chips_in};
use trace::feed::{Fed, FedInPlace, Feed, part_in_place};
use trace::progress::{Ending, Progress};

// Number and place as one 64-bit number.
fn pack_feed(number: u8, place: u64) -> u64
    requires { place < 4294967296 }
    ensures { result ≡ feed_packed number place }
{
    (number as u64) + 256 * place
}

// Whether a call leaves the feed's bytes as they came: the feed was stopped before, or the number is 1, 2 or 13.
fn stays(ending: Ending, number: u8) -> bool
    ensures { result ≡ stays ending number }
{
    match ending {
        Ending::Stopped(_, _) => true,
        Ending::Open => matches!(number, 1 | 2 | 13),
    }
}

// The progress written to its 24 bytes, unless the feed's bytes stay.
fn write_back(ending: Ending, number: u8, next: Progress, bytes: &mut [u8])
    requires { length bytes.old ≡ progress_length }
    ensures { bytes.new ≡ kept_or ending number bytes.old next }
{
    if stays(ending, number) {
        return;
    }
    progress_out(next, bytes);
}

// Opens a feed on the chips' bytes: all 48 bytes of the feed are written, the chips as given.
#[unsafe(no_mangle)]
#[tactic(auto, using(std::proofs::lemmas::Bool::Decides::nat_tests, crate::proofs::FeedPlaces::open_place), unfolding(crate::specs::FeedCall::open_call))]
pub extern "C" fn pedralume_feed_open(feed: &mut [u8], chips: &[u8]) -> u64
    ensures { result_of result feed.new ≡ open_call feed.old chips.now }
{
    if feed.len() != FEED_BYTES || chips.len() != CHIPS_BYTES {
        return pack_feed(Refusal::WrongSize.number(), 0);
    }
    let opened = Feed::open(chips_in(chips));
    let (front, behind) = feed.split_at_mut(CHIPS_BYTES);
    front.copy_from_slice(chips);
    progress_out(opened.feed.progress, behind);
    pack_feed(opened.tally.number, opened.tally.place)
}

// The next part of the trace given to the feed that lies in its 48 bytes, over the image and an answer buffer.
#[unsafe(no_mangle)]
#[tactic(auto, using(std::proofs::lemmas::Bool::Decides::nat_tests), unfolding(crate::specs::FeedCall::part_call))]
pub extern "C" fn pedralume_feed_part(
    feed: &mut [u8],
    ram: &mut [u8],
    part: &[u8],
    answers: &mut [u8],
) -> u64
    ensures { in_place result feed.new ram.new answers.new
        ≡ part_call feed.old ram.old part.now answers.old }
{
    if feed.len() != FEED_BYTES {
        return pack_feed(Refusal::WrongSize.number(), 0);
    }
    let (chips, behind) = feed.split_at_mut(CHIPS_BYTES);
    let held = progress_in(behind);
    let FedInPlace { tally, progress } = part_in_place(chips, held, ram, part, answers);
    write_back(held.ending, tally.number, progress, behind);
    pack_feed(tally.number, tally.place)
}

// The end of the trace: the feed that lies in its 48 bytes is closed.
#[unsafe(no_mangle)]
#[tactic(auto, using(std::proofs::lemmas::Bool::Decides::nat_tests), unfolding(crate::specs::FeedCall::close_call))]
pub extern "C" fn pedralume_feed_close(feed: &mut [u8]) -> u64
    ensures { result_of result feed.new ≡ close_call feed.old }
{
    if feed.len() != FEED_BYTES {
        return pack_feed(Refusal::WrongSize.number(), 0);
    }
    let (chips, behind) = feed.split_at_mut(CHIPS_BYTES);
    let chips = chips_in(chips);
    let progress = progress_in(behind);
    let Fed { tally, feed } = Feed { chips, progress }.close();
    write_back(progress.ending, tally.number, feed.progress, behind);
    pack_feed(tally.number, tally.place)
}
