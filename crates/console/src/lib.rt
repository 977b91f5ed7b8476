// What the programs share: reading standard input, text put into a lent buffer, and what a replay is lent.

#![tactic(auto)]

pub mod input;
pub mod program;
pub mod text;

use panel::trace::TRACE_BYTES;
use sed1520::bus::RECORD_BYTES;
use sed1520::tally::ANSWER_BYTES;

// One byte more than a trace may have, so that a longer one is seen to be too long.
pub const INPUT_BYTES: usize = TRACE_BYTES + 1;

// The answer buffer: room for the answers of the longest trace.
pub const ANSWERS_BYTES: usize = ANSWER_BYTES * (TRACE_BYTES / RECORD_BYTES);
