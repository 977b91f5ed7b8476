// Text put into a lent buffer, as much of it as there is room for.
ghost use Rattle.std.specs.Prelude.{◌≡◌, ◌≤◌, [], ◌∷◌, length};
ghost use Rattle.console.specs.Text.{decimal, decimal_digits, next_number, end_line, refused_before, Put};

// The buffer, and how many of its bytes the text has.
#[derive(Drop)]
pub struct Text<'a> {
    out: &'a mut [u8],
    len: usize,
    ghost within: { len ≤ length out.now },
}

impl Text<'_> {
    ghost use Rattle.console.specs.Puts.{Puts, text_of};

    // The empty text.
    pub fn new(out: &mut [u8]) -> Text<'_>
        ensures same { result.out.ghost_name ≡ out.entry.ghost_name }
        ensures buffer { result.out.now ≡ out.old }
        ensures empty { result.len ≡ 0 }
    {
        Text { out, len: 0 }
    }

    // The text so far.
    pub fn as_bytes(&self) -> &[u8]
        ensures { result.now ≡ text_of self.now }
    {
        &self.out[..self.len]
    }

    // One byte.
    pub fn byte(&mut self, byte: u8)
        ensures { Puts self.old (byte ∷ []) self.new }
    {
        if self.len < self.out.len() {
            self.out[self.len] = byte;
            self.len += 1;
        }
    }

    // Some bytes.
    pub fn bytes(&mut self, bytes: &[u8])
        ensures { Puts self.old bytes.now self.new }
    {
        for &byte in bytes {
            self.byte(byte);
        }
    }

    // The decimal digits of a number that has at most so many.
    fn digits(&mut self, n: u64, most: usize)
        ensures { Puts self.old (decimal most n) self.new }
    {
        if most == 0 {
            return;
        }
        if n < 10 {
            return self.byte(b'0' + (n as u8));
        }
        self.digits(n / 10, most - 1);
        self.byte(b'0' + ((n % 10) as u8));
    }

    // A number.
    pub fn number(&mut self, n: u64)
        ensures { Puts self.old (decimal_digits n) self.new }
    {
        self.digits(n, 20);
    }

    // A space and a number.
    pub fn next_number(&mut self, n: u64)
        ensures { Puts self.old (next_number n) self.new }
    {
        self.byte(b' ');
        self.number(n);
    }

    // The end line.
    pub fn end_line(&mut self, number: u8, place: u64, compared: u64, differing: u64)
        ensures { Puts self.old (end_line number place compared differing) self.new }
    {
        self.bytes(b"end");
        self.next_number(number as u64);
        self.next_number(place);
        self.next_number(compared);
        self.next_number(differing);
        self.byte(b'\n');
    }
}

// Some bytes put at any place of a buffer, none where the place is past its end. Each `put_` answers the place past what it
// put: they are for callers that hold a place of their own, which a `Text` can't say.
#[tactic(auto, using(crate::proofs::Puts::put_past))]
pub fn put_bytes(out: &mut [u8], at: usize, bytes: &[u8]) -> usize
    ensures { Put out.old out.new at result bytes.now }
{
    if at > out.len() {
        return at;
    }
    let mut text = Text { out, len: at };
    text.bytes(bytes);
    text.len
}

// A number.
#[tactic(auto, using(crate::proofs::Puts::put_past))]
pub fn put_number(out: &mut [u8], at: usize, n: u64) -> usize
    ensures { Put out.old out.new at result (decimal_digits n) }
{
    if at > out.len() {
        return at;
    }
    let mut text = Text { out, len: at };
    text.number(n);
    text.len
}

// A space and a number.
pub fn put_next(out: &mut [u8], at: usize, n: u64) -> usize
    ensures { Put out.old out.new at result (next_number n) }
{
    let first = put_bytes(out, at, b" ");
    put_number(out, first, n)
}

// The end line.
pub fn put_end(
    out: &mut [u8],
    at: usize,
    number: u8,
    place: u64,
    compared: u64,
    differing: u64,
) -> usize
    ensures { Put out.old out.new at result (end_line number place compared differing) }
{
    let word = put_bytes(out, at, b"end");
    let first = put_next(out, word, number as u64);
    let second = put_next(out, first, place);
    let third = put_next(out, second, compared);
    let fourth = put_next(out, third, differing);
    put_bytes(out, fourth, b"\n")
}

// Whether a number refuses a trace before its first record.
pub fn refused_before(number: u8) -> bool
    ensures { result ≡ refused_before number }
{
    (1 <= number) & (number <= 3)
}
