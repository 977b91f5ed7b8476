// Choices, lists, buffers, counts, runs and tables of numbers: definitions and laws that every other crate uses; why a call
// is refused and where, four bytes as a number, and the copying of bytes.

#![tactic(auto)]

pub mod refusal;
pub mod verdict;

ghost use Rattle.std.specs.Prelude.{◌≡◌};
ghost use Rattle.basics.specs.Bytes.{as_word, copied};

// Four bytes as a number, lowest first.
pub fn word_of(a: u8, b: u8, c: u8, d: u8) -> u32
    ensures { result ≡ as_word a b c d }
{
    u32::from_le_bytes([a, b, c, d])
}

// Bytes copied to the front of a buffer, as many as it has room for.
pub fn copy(from: &[u8], to: &mut [u8])
    ensures { to.new ≡ copied from.now to.old }
{
    let count = from.len().min(to.len());
    to[..count].copy_from_slice(&from[..count]);
}
