// What of a trace a reader can see: the records that changed what the panel shows.

#![tactic(auto)]

mod half;
mod walk;
mod watch;

ghost use Rattle.std.specs.Prelude.{[], false, ◌≡◌};
ghost use Rattle.basics.specs.Refusals.{refused_or, verdict_of};
ghost use Rattle.basics.specs.Table.{verdict_by};
ghost use Rattle.basics.specs.Verdict.{result_of, verdict};
ghost use Rattle.panel.specs.Panel.{as_panel};
ghost use Rattle.panel.specs.Trace.{trace_sizes_wrong, trace_table};
ghost use Rattle.sed1520.specs.Chip.{out_of_range};
ghost use Rattle.visible.specs.Changes.{changes_of};

use crate::walk::{ENTRY_BYTES, walk_over};
use basics::refusal::Refusal;
use basics::verdict::{Refused, Verdict};
use panel::chips::Chips;
use panel::trace::{sizes_wrong, trace_verdict};

// Refuses by numbers 1 to 3: more bytes than one call may take or an image that is not 640, chips out of range, a trace that
// ends within a record.
fn check_trace(chips: Chips, ram: usize, bytes: usize) -> Result<(), Refused>
    ensures { refused_or (verdict 0 0) result
        ≡ verdict_by
        (trace_table (trace_sizes_wrong bytes ram false) (out_of_range chips.left) (out_of_range chips.right) bytes [])
        (verdict 0 0) }
{
    let Chips { left, right } = chips;
    let wrong = sizes_wrong(bytes, ram, false);
    trace_verdict(wrong, !left.in_range(), !right.in_range(), bytes)
}

// The records of a trace after which the frame differs from before them, an entry of 8 bytes for each. Chips and image are
// only read; the records run on copies, twice: the entries are counted before the first is written, so that a refusal
// changes nothing.
pub fn changes(chips: Chips, ram: &[u8], trace: &[u8], entries: &mut [u8]) -> Verdict
    ensures { result_of (verdict_of result) entries.new
        ≡ changes_of (as_panel chips.left chips.right ram.now) trace.now entries.old }
{
    check_trace(chips, ram.len(), trace.len())?;
    let listed = walk_over(chips, ram, trace, &mut entries[..0])?;
    if entries.len() / ENTRY_BYTES < listed {
        return Err(Refused::new(Refusal::TooManyEntries, listed as u64));
    }
    let listed = walk_over(chips, ram, trace, entries)?;
    Ok(listed as u64)
}
