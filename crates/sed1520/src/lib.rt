// One SED1520: its registers, its commands, and one bus cycle over its own 320 bytes of display RAM; the chip as 12 bytes,
// and bus records given to these.

#![tactic(auto)]

pub mod actions;
pub mod bus;
mod bytes_command;
pub mod bytes_run;
pub mod chip_bytes;
pub mod commands;
mod effects;
pub mod memory;
pub mod reading;
pub mod registers;
pub mod tally;
