// Replays the raw bytes of standard input on fresh chips with RAM all 0, and prints how often each RAM byte was stored to,
// page by page, the sum, and the end line.

#![tactic(auto)]

mod text;

ghost use Rattle.std.specs.Prelude.{◌+◌, ◌≤◌, ◌≡◌, ◌++◌, length, replicate, OnOk};
ghost use Rattle.std.specs.Io.KnownBytes.{Appends};
ghost use Rattle.console.specs.Puts.{Puts, text_of};
ghost use Rattle.wear.specs.Text.{program_text};

use crate::text::put_wear;
use console::ANSWERS_BYTES;
use console::program::{Listing, print_listing};
use console::text::Text;
use panel::chips::{Chips, IMAGE_BYTES};
use sed1520::registers::Chip;
use std::io::{self, Print, Read, Write};

// Enough for 8 lines of at most 1,727 bytes, the sum and the end line.
const TEXT_BYTES: usize = 13929;

type TextBytes = [u8; TEXT_BYTES];

// Where the text is put. In a function of its own, since no proof is to compute the list of its zeros.
fn text_buffer() -> TextBytes
    ensures { result ≡ replicate 13929 0 }
{
    [0; TEXT_BYTES]
}

// The listing of a trace's wear, put into a text: all of it where there is room for TEXT_BYTES.
fn listing(trace: &[u8], text: &mut Text)
    ensures put { Puts text.old (program_text trace.now) text.new }
    ensures whole { text.old.len + 13929 ≤ length text.old.out.now → text_of text.new ≡ text_of text.old ++ program_text trace.now }
{
    let mut ram = [0; IMAGE_BYTES];
    let mut answers = [0; ANSWERS_BYTES];
    let mut wear = [0; IMAGE_BYTES];
    let chips = Chips {
        left: Chip::fresh(),
        right: Chip::fresh(),
    };
    let done = trace::replay(chips, &mut ram, trace, &mut answers, &mut wear).tally;
    put_wear(text, &wear, done.number);
    text.end_line(done.number, done.place, done.compared, done.differing);
}

// What this program prints of a trace.
struct WearListing;

impl Listing for WearListing {
    ghost listed = { program_text };

    fn put(trace: &[u8], text: &mut Text<'_>) {
        listing(trace, text);
    }
}

// The listing of the input, printed whole.
fn print<R: Read, W: Write>(reader: &mut R, writer: &mut W) -> io::Result<()>
    ensures { OnOk result ((trace : _) × Appends (W.contents writer.old) (W.contents writer.new) (program_text trace)) }
{
    print_listing::<WearListing, R, W>(reader, writer, &mut text_buffer())
}

fn main(rt: HostRuntime) {
    match print(&mut rt.stdin(), &mut rt.stdout()) {
        Ok(()) | Err(_) => {}
    }
}
