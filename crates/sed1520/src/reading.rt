// What a record reads off a chip.
ghost use Rattle.std.specs.Prelude.{◌≡◌};
ghost use Rattle.sed1520.specs.Cycle.{kind_of, byte_of};

// The answer to an accepted record: its kind and, of a read, the byte.
#[derive(Clone, Copy, Debug, PartialEq, Eq)]
pub enum Reading {
    // kind 0, byte 0: a write reads nothing
    Nothing,
    // kind 1: a data read with a fresh latch
    Fresh(u8),
    // kind 2: a data read with a stale latch
    Stale(u8),
    // kind 3: a status read
    Status(u8),
}

impl Reading {
    // The kind of the answer.
    pub fn kind(self) -> u8
        ensures { result ≡ kind_of self }
    {
        match self {
            Reading::Nothing => 0,
            Reading::Fresh(_) => 1,
            Reading::Stale(_) => 2,
            Reading::Status(_) => 3,
        }
    }

    // The byte that was read, or 0.
    pub fn byte(self) -> u8
        ensures { result ≡ byte_of self }
    {
        match self {
            Reading::Nothing => 0,
            Reading::Fresh(byte) | Reading::Stale(byte) | Reading::Status(byte) => byte,
        }
    }
}
