// What the programs do with their input.
ghost use Rattle.std.specs.Prelude.{ℕ, ◌≡◌, ◌⊎◌, List, length, take, OnOk};
ghost use Rattle.std.specs.Io.KnownBytes.{Appends};
ghost use Rattle.std.proofs.lemmas.List.Edits.{sets};
ghost use Rattle.console.specs.Puts.{Puts};

use crate::INPUT_BYTES;
use crate::input::read_input;
use crate::text::Text;
use std::io::{self, Read, Write};

// What a program prints of a trace. A closure may be called only where that is proved, which no public function here asks of
// its caller: who has one calls it on an empty `Text`, between `read_input` and `write_all`.
pub trait Listing {
    // its text, by the bytes of the trace
    ghost listed: { List ℕ → List ℕ };

    // The text put behind what a text has, as much of it as there is room for.
    fn put(trace: &[u8], text: &mut Text<'_>)
        ensures { Puts text.old (listed trace.now) text.new };
}

// Prints the listing of the input, made in the buffer: what is written is as much of it as the buffer has room for. A read
// that fails prints nothing. The text goes out in one piece, so a write that falls short prints no whole last line.
pub fn print_listing<L: Listing, R: Read, W: Write>(
    reader: &mut R,
    writer: &mut W,
    buffer: &mut [u8],
) -> io::Result<()>
    ensures made { (buffer.new ≡ buffer.old) ⊎ ((trace : _) × (buffer.new ≡ sets buffer.old 0 (L.listed trace))) }
    ensures printed { OnOk result ((trace : _) × (buffer.new ≡ sets buffer.old 0 (L.listed trace))
        × Appends (W.contents writer.old) (W.contents writer.new) (take (length buffer.old) (L.listed trace))) }
{
    let mut trace = [0; INPUT_BYTES];
    let count = read_input(reader, &mut trace)?;
    let mut text = Text::new(buffer);
    L::put(&trace[..count], &mut text);
    writer.write_all(text.as_bytes())
}
