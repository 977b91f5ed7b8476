// What each command does to the chip.
ghost use Rattle.std.specs.Prelude.{◌≡◌};
ghost use Rattle.sed1520.specs.Cycle.{execute};
ghost use Rattle.sed1520.specs.declared.commands.Opcode.TheVariants.{Modify, End, Reset};

use crate::commands::{Command, Opcode};
use crate::registers::Chip;

impl Chip {
    // Read-modify-write on, with the column saved; already on, nothing changes.
    #[tactic(auto, unfolding(crate::specs::Cycle::execute))]
    fn modify_begun(mut self) -> Chip
        ensures { result ≡ execute Modify 0 self }
    {
        if self.modify {
            return self;
        }
        self.modify = true;
        self.saved_column = self.column;
        self
    }

    // Read-modify-write off, back at the saved column, none saved, the latch stale; already off, nothing changes.
    #[tactic(auto, unfolding(crate::specs::Cycle::execute))]
    fn modify_ended(mut self) -> Chip
        ensures { result ≡ execute End 0 self }
    {
        if self.modify {
            self.modify = false;
            self.column = self.saved_column;
            self.saved_column = 0;
            return self.staled();
        }
        self
    }

    // Start line, column and page 0, the latch stale; the rest stays.
    #[tactic(auto, unfolding(crate::specs::Cycle::execute))]
    fn reset(mut self) -> Chip
        ensures { result ≡ execute Reset 0 self }
    {
        self.start_line = 0;
        self.column = 0;
        self.page = 0;
        self.staled()
    }

    // What an accepted command does.
    #[tactic(auto, unfolding(crate::specs::Cycle::execute))]
    pub(crate) fn execute(mut self, command: Command) -> Chip
        ensures { result ≡ execute command.opcode command.argument self }
    {
        let argument = command.argument;
        match command.opcode {
            Opcode::Display => self.display_on = argument != 0,
            Opcode::StartLine => self.start_line = argument,
            Opcode::Page => {
                self.page = argument;
                return self.staled();
            }
            Opcode::Column => {
                self.column = argument;
                return self.staled();
            }
            Opcode::Adc => self.reverse = argument != 0,
            Opcode::Static => self.static_on = argument != 0,
            Opcode::Duty => self.duty_32 = argument != 0,
            Opcode::Modify => return self.modify_begun(),
            Opcode::End => return self.modify_ended(),
            Opcode::Reset => return self.reset(),
        }
        self
    }
}
