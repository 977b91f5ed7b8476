// Commands and bytes. Both ways go by one rule of specs/Command.antt: each opcode has a first byte and a count of values
// that its argument may take.
ghost use Rattle.std.specs.Prelude.{◌≡◌};
ghost use Rattle.basics.specs.declared.refusal.Refusal.TheVariants.{NoCommand};
ghost use Rattle.sed1520.specs.Command.{first, count, opcodes, among, decode_of, encode_of, coded_command, coded_byte};

use basics::refusal::Refusal;

// The ten opcodes (document 01: kinds of command), in the order of the sheet's table 4.1.
#[derive(Clone, Copy, Debug, PartialEq, Eq)]
pub enum Opcode {
    Display,
    StartLine,
    Page,
    Column,
    Adc,
    Static,
    Duty,
    Modify,
    End,
    Reset,
}

// An opcode with its argument.
#[derive(Clone, Copy, Debug, PartialEq, Eq)]
pub struct Command {
    pub opcode: Opcode,
    pub argument: u8,
}

// A byte that is no command.
#[derive(Clone, Copy, Debug, PartialEq, Eq)]
pub struct UnknownByte(pub u8);

// An argument that its opcode does not have.
#[derive(Clone, Copy, Debug, PartialEq, Eq)]
pub struct UnknownArgument(pub u8);

impl Opcode {
    // The byte of argument 0.
    pub fn first(self) -> u8
        ensures { result ≡ first self }
    {
        match self {
            Opcode::Display => 0xAE,
            Opcode::StartLine => 0xC0,
            Opcode::Page => 0xB8,
            Opcode::Column => 0x00,
            Opcode::Adc => 0xA0,
            Opcode::Static => 0xA4,
            Opcode::Duty => 0xA8,
            Opcode::Modify => 0xE0,
            Opcode::End => 0xEE,
            Opcode::Reset => 0xE2,
        }
    }

    // How many values the argument may take, from 0 up.
    pub fn count(self) -> u8
        ensures { result ≡ count self }
    {
        match self {
            Opcode::Display => 2,
            Opcode::StartLine => 32,
            Opcode::Page => 4,
            Opcode::Column => 128,
            Opcode::Adc => 2,
            Opcode::Static => 2,
            Opcode::Duty => 2,
            Opcode::Modify => 1,
            Opcode::End => 1,
            Opcode::Reset => 1,
        }
    }
}

// The byte of a command.
impl TryFrom<Command> for u8 {
    type Error = UnknownArgument;

    ghost try_from_gives = { λ command result. coded_byte result ≡ encode_of command };

    #[tactic(auto, unfolding(crate::specs::Command::encode_of))]
    fn try_from(command: Command) -> Result<u8, UnknownArgument> {
        if command.argument < command.opcode.count() {
            Ok(command.opcode.first() + command.argument)
        } else {
            Err(UnknownArgument(command.argument))
        }
    }
}

// The opcode whose range has the byte, to be compared with table 4.1 of the chip's sheet (source document 000). The pins
// A0 RD WR are at 0 1 0; the table's status and data, (5) to (7), are decoded by these pins alone.
fn opcode_of(byte: u8) -> Option<Opcode>
    ensures { result ≡ among opcodes byte }
{
    match byte {
        // The table's commands (1) to (4) and (8) to (13) stand in its order, each with its first and last byte in binary,
        // or its only one; no two share a byte. Beside each: section 4.n, which is command (n); the digits, of which D and
        // the address bits A6 to A0 vary; the bytes in hex and the numbers that they set.
        // range                     opcode                         4.n   D7 to D0                hex
        0b1010_1110..=0b1010_1111 => Some(Opcode::Display), //   4.1   1 0 1 0 1 1 1 D         AE, AF
        0b1100_0000..=0b1101_1111 => Some(Opcode::StartLine), // 4.2   1 1 0 A4 A3 A2 A1 A0    C0 to DF (0 to 31)
        0b1011_1000..=0b1011_1011 => Some(Opcode::Page), //      4.3   1 0 1 1 1 0 A1 A0       B8 to BB (0 to 3)
        0b0000_0000..=0b0111_1111 => Some(Opcode::Column), //    4.4   0 A6 A5 A4 A3 A2 A1 A0  00 to 7F (seven bits: 0 to 127; sheet: 0 to 79)
        0b1010_0000..=0b1010_0001 => Some(Opcode::Adc), //       4.8   1 0 1 0 0 0 0 D         A0, A1
        0b1010_0100..=0b1010_0101 => Some(Opcode::Static), //    4.9   1 0 1 0 0 1 0 D         A4, A5 (A5 is on, by the table; 4.9 says A4)
        0b1010_1000..=0b1010_1001 => Some(Opcode::Duty), //      4.10  1 0 1 0 1 0 0 D         A8, A9 (the table's code; 4.10 prints that of 4.9)
        0b1110_0000 => Some(Opcode::Modify), //                  4.11  1 1 1 0 0 0 0 0         E0
        0b1110_1110 => Some(Opcode::End), //                     4.12  1 1 1 0 1 1 1 0         EE
        0b1110_0010 => Some(Opcode::Reset), //                   4.13  1 1 1 0 0 0 1 0         E2
        _ => None, // the other 81 bytes, which are no command
    }
}

// The command that a byte is.
impl TryFrom<u8> for Command {
    type Error = UnknownByte;

    ghost try_from_gives = { λ byte result. coded_command result ≡ decode_of byte };

    fn try_from(byte: u8) -> Result<Command, UnknownByte> {
        let opcode = opcode_of(byte).ok_or(UnknownByte(byte))?;
        Ok(Command {
            opcode,
            argument: byte - opcode.first(),
        })
    }
}

impl From<UnknownByte> for Refusal {
    ghost from_gives = { λ _ refusal. refusal ≡ NoCommand };

    fn from(_unknown: UnknownByte) -> Refusal {
        Refusal::NoCommand
    }
}
