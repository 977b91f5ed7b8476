// Replays the raw bytes of standard input on fresh chips with RAM all 0, and prints each answer and the end line.

#![tactic(auto)]

mod text;

ghost use Rattle.std.specs.Prelude.{◌+◌, ◌≤◌, ◌≡◌, ◌++◌, length, replicate, OnOk};
ghost use Rattle.std.specs.Io.KnownBytes.{Appends};
ghost use Rattle.console.specs.Puts.{Puts, text_of};
ghost use Rattle.replay.specs.Text.{answers_given, program_text};

use crate::text::put_lines;
use console::ANSWERS_BYTES;
use console::program::{Listing, print_listing};
use console::text::{Text, refused_before};
use panel::chips::{Chips, IMAGE_BYTES, chips_bytes};
use sed1520::registers::Chip;
use std::io::{self, Print, Read, Write};

// Enough for 16,384 lines of at most 45 bytes and the end line.
const TEXT_BYTES: usize = 737368;

type TextBytes = [u8; TEXT_BYTES];

// Where the text is put. In a function of its own, since no proof is to compute the list of its zeros.
fn text_buffer() -> TextBytes
    ensures { result ≡ replicate 737368 0 }
{
    [0; TEXT_BYTES]
}

// How many answers a replay gave.
fn given_in(number: u8, place: u64) -> usize
    ensures { result ≡ answers_given number place }
{
    if refused_before(number) {
        return 0;
    }
    place as usize
}

// The listing of a trace, put into a text: all of it where there is room for TEXT_BYTES.
fn listing(trace: &[u8], text: &mut Text)
    ensures put { Puts text.old (program_text trace.now) text.new }
    ensures whole { text.old.len + 737368 ≤ length text.old.out.now → text_of text.new ≡ text_of text.old ++ program_text trace.now }
{
    let mut chips = chips_bytes(Chips {
        left: Chip::fresh(),
        right: Chip::fresh(),
    });
    let mut ram = [0; IMAGE_BYTES];
    let mut answers = [0; ANSWERS_BYTES];
    let done = trace::replay_in_place(&mut chips, &mut ram, trace, &mut answers);
    put_lines(text, &answers, given_in(done.number, done.place));
    text.end_line(done.number, done.place, done.compared, done.differing);
}

// What this program prints of a trace.
struct AnswersListing;

impl Listing for AnswersListing {
    ghost listed = { program_text };

    fn put(trace: &[u8], text: &mut Text<'_>) {
        listing(trace, text);
    }
}

// The listing of the input, printed whole.
fn print<R: Read, W: Write>(reader: &mut R, writer: &mut W) -> io::Result<()>
    ensures { OnOk result ((trace : _) × Appends (W.contents writer.old) (W.contents writer.new) (program_text trace)) }
{
    print_listing::<AnswersListing, R, W>(reader, writer, &mut text_buffer())
}

fn main(rt: HostRuntime) {
    match print(&mut rt.stdin(), &mut rt.stdout()) {
        Ok(()) | Err(_) => {}
    }
}
