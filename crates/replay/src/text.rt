// The lines of a listing, put into a text, as much of them as there is room for.
ghost use Rattle.std.specs.Prelude.{◌*◌, ◌<◌, ◌≤◌, ◌≡◌, [], ◌∷◌, ◌++◌, length};
ghost use Rattle.console.specs.Puts.{Puts};
ghost use Rattle.replay.specs.Text.{hex_digit, hex_digits, answer_line, answer_lines};

use console::text::Text;

// A hexadecimal digit.
#[tactic(auto, unfolding(crate::specs::Text::hex_digit))]
fn hex_digit(n: u8) -> u8
    requires { n < 16 }
    ensures { result ≡ hex_digit n }
{
    if n < 10 { 48 + n } else { 55 + n }
}

// A space, a byte in hexadecimal and the end of the line.
fn put_hex(text: &mut Text, byte: u8)
    ensures { Puts text.old (32 ∷ hex_digits byte ++ (10 ∷ [])) text.new }
{
    text.bytes(&[b' ', hex_digit(byte / 16), hex_digit(byte % 16), b'\n']);
}

// The line of an answer.
fn put_line(text: &mut Text, index: u64, kind: u8, byte: u8)
    ensures { Puts text.old (answer_line index kind byte) text.new }
{
    text.number(index);
    text.next_number(kind as u64);
    put_hex(text, byte);
}

// The lines of the answers from the first on, two bytes each.
pub(crate) fn put_lines(text: &mut Text, answers: &[u8], count: usize)
    requires { 2 * count ≤ length answers.now }
    ensures { Puts text.old (answer_lines answers.now count) text.new }
{
    for index in 0..count {
        put_line(
            text,
            index as u64,
            answers[2 * index],
            answers[2 * index + 1],
        );
    }
}
