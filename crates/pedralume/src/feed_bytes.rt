// A feed as the C side has it: 48 bytes, first the 24 of both chips, then 24 of what the feed holds beside its chips.
ghost use Rattle.std.specs.Prelude.{◌+◌, ◌≤◌, ◌≡◌, length};
ghost use Rattle.pedralume.specs.FeedBytes.{progress_length, word_at, put_word, marks_right, ending_in, progress_in};
ghost use Rattle.pedralume.specs.FeedBytes.{stopped_byte, number_byte, stop_place, progress_bytes};

use basics::word_of;
use panel::chips::CHIPS_BYTES;
use trace::progress::{Ending, Progress};

// The bytes of a feed.
pub(crate) const FEED_BYTES: usize = CHIPS_BYTES + PROGRESS_BYTES;

// The bytes of a feed's progress.
const PROGRESS_BYTES: usize = 24;

// Four bytes from a place on, lowest first.
fn word_at(bytes: &[u8], at: usize) -> u32
    requires { at + 4 ≤ length bytes.now }
    ensures { result ≡ word_at bytes.now at }
{
    word_of(bytes[at], bytes[at + 1], bytes[at + 2], bytes[at + 3])
}

// A number written as four bytes, lowest first.
fn put_word(bytes: &mut [u8], at: usize, number: u32)
    requires { at + 4 ≤ length bytes.old }
    ensures { bytes.new ≡ put_word bytes.old at number }
{
    bytes[at..at + 4].copy_from_slice(&number.to_le_bytes());
}

// Whether the marks are those of a stopped feed or of an open one: stopped is 1; or stopped, number, the two zeros and
// the place are 0.
#[tactic(auto, using(std::proofs::lemmas::Bool::Decides::nat_tests), unfolding(crate::specs::FeedBytes::marks_right))]
fn marks_right(bytes: &[u8]) -> bool
    requires { length bytes.now ≡ progress_length }
    ensures { result ≡ marks_right bytes.now }
{
    bytes[4] == 1 || (word_at(bytes, 4) == 0 && word_at(bytes, 8) == 0)
}

// Stopped with its number and place, or open.
fn ending_in(bytes: &[u8]) -> Ending
    requires { length bytes.now ≡ progress_length }
    ensures { result ≡ ending_in bytes.now }
{
    if bytes[4] == 1 {
        return Ending::Stopped(bytes[5], word_at(bytes, 8));
    }
    Ending::Open
}

// The progress that 24 bytes stand for; where the marks are wrong, one that number 2 refuses at place 3.
#[tactic(auto, unfolding(crate::specs::FeedBytes::progress_in))]
pub(crate) fn progress_in(bytes: &[u8]) -> Progress
    requires { length bytes.now ≡ progress_length }
    ensures { result ≡ progress_in bytes.now }
{
    let whole = Progress {
        kept: bytes[0],
        first: bytes[1],
        second: bytes[2],
        third: bytes[3],
        records: word_at(bytes, 12),
        compared: word_at(bytes, 16),
        differing: word_at(bytes, 20),
        ending: ending_in(bytes),
    };
    if !marks_right(bytes) {
        return Progress {
            compared: 0,
            differing: 1,
            ..whole
        };
    }
    whole
}

// A feed's progress written as 24 bytes.
pub(crate) fn progress_out(progress: Progress, bytes: &mut [u8])
    requires { length bytes.old ≡ progress_length }
    ensures { bytes.new ≡ progress_bytes progress }
{
    let Progress {
        kept,
        first,
        second,
        third,
        ..
    } = progress;
    let (stopped, number, place) = marks_of(progress.ending);
    bytes[..8].copy_from_slice(&[kept, first, second, third, stopped, number, 0, 0]);
    put_word(bytes, 8, place);
    put_word(bytes, 12, progress.records);
    put_word(bytes, 16, progress.compared);
    put_word(bytes, 20, progress.differing);
}

// 1 where a feed is stopped, with the number and the place that it repeats; else 0 in all three.
fn marks_of(ending: Ending) -> (u8, u8, u32)
    ensures stopped { result.0 ≡ stopped_byte ending }
    ensures number { result.1 ≡ number_byte ending }
    ensures place { result.2 ≡ stop_place ending }
{
    match ending {
        Ending::Open => (0, 0, 0),
        Ending::Stopped(number, place) => (1, number, place),
    }
}
