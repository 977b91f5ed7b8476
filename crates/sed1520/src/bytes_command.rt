// A command written to the 12 bytes of a chip.
ghost use Rattle.std.specs.Prelude.{◌≡◌, length};
ghost use Rattle.basics.specs.Refusals.{numbered};
ghost use Rattle.sed1520.specs.BytesRun.{executed_bytes, command_bytes};
ghost use Rattle.sed1520.specs.ChipBytes.{chip_length, registers_in};
ghost use Rattle.sed1520.specs.Cycle.{command_write};
ghost use Rattle.sed1520.specs.declared.commands.Opcode.TheVariants.{Modify, End};

use crate::actions::check_column;
use crate::commands::{Command, Opcode};
use basics::refusal::Refusal;

// Read-modify-write on, with the column saved; already on, nothing is stored.
#[tactic(auto, unfolding(crate::specs::ChipBytes::chip_bytes, crate::specs::Cycle::execute, crate::specs::ChipBytes::registers_in))]
fn begin_modify(bytes: &mut [u8])
    requires { length bytes.old ≡ chip_length }
    ensures { bytes.new ≡ executed_bytes Modify 0 bytes.old }
{
    if bytes[4] != 1 {
        bytes[4] = 1;
        bytes[8] = bytes[7];
    }
}

// Read-modify-write off, back at the saved column, none saved, the latch stale; already off, nothing is stored.
#[tactic(auto, unfolding(crate::specs::ChipBytes::chip_bytes, crate::specs::Cycle::execute, crate::specs::ChipBytes::registers_in))]
fn end_modify(bytes: &mut [u8])
    requires { length bytes.old ≡ chip_length }
    ensures { bytes.new ≡ executed_bytes End 0 bytes.old }
{
    if bytes[4] == 1 {
        bytes[4] = 0;
        bytes[7] = bytes[8];
        bytes[8] = 0;
        bytes[9] = 0;
    }
}

// An accepted command stores the bytes of the registers that it sets and no others.
#[tactic(auto, unfolding(crate::specs::ChipBytes::chip_bytes, crate::specs::Cycle::execute, crate::specs::ChipBytes::registers_in))]
fn execute(bytes: &mut [u8], command: Command)
    requires { length bytes.old ≡ chip_length }
    ensures { bytes.new ≡ executed_bytes command.opcode command.argument bytes.old }
{
    let argument = command.argument;
    match command.opcode {
        Opcode::Display => bytes[0] = u8::from(argument != 0),
        Opcode::StartLine => bytes[6] = argument,
        Opcode::Page => {
            bytes[5] = argument;
            bytes[9] = 0;
        }
        Opcode::Column => {
            bytes[7] = argument;
            bytes[9] = 0;
        }
        Opcode::Adc => bytes[3] = u8::from(argument != 0),
        Opcode::Static => bytes[1] = u8::from(argument != 0),
        Opcode::Duty => bytes[2] = u8::from(argument != 0),
        Opcode::Modify => begin_modify(bytes),
        Opcode::End => end_modify(bytes),
        Opcode::Reset => {
            bytes[5] = 0;
            bytes[6] = 0;
            bytes[7] = 0;
            bytes[9] = 0;
        }
    }
}

// A command write; a refused one stores nothing.
pub(crate) fn write_command(bytes: &mut [u8], byte: u8) -> Result<(), Refusal>
    requires { length bytes.old ≡ chip_length }
    ensures number { numbered result ≡ (command_write byte (registers_in bytes.old)).number }
    ensures bytes { bytes.new ≡ command_bytes byte bytes.old }
{
    let command = Command::try_from(byte)?;
    check_column(byte, bytes[4] == 1)?;
    execute(bytes, command);
    Ok(())
}
