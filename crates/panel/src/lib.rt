// Two SED1520 on one bus over one RAM image of 640 bytes: both chips as 24 bytes, and a bus record given to the one that it
// names.

#![tactic(auto)]

pub mod chips;
pub mod step;
pub mod trace;
