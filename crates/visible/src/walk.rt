// The records of a trace one after the other, and an entry for each that changed what the panel shows.
ghost use Rattle.std.specs.Prelude.{◌<◌, ◌≤◌, ◌≡◌, length};
ghost use Rattle.panel.specs.Trace.{trace_limit, trace_run};
ghost use Rattle.basics.specs.Bytes.{pair_limit};
ghost use Rattle.panel.specs.Panel.{as_panel, Whole};
ghost use Rattle.visible.specs.Changes.{as_entry, entry_bytes};
ghost use Rattle.visible.specs.Sight.{listing, one_more, Walked};

use crate::watch::watch;
use basics::verdict::Refused;
use panel::chips::{Chips, IMAGE_BYTES};
use sed1520::bus::{RECORD_BYTES, Record};

// The bytes of an entry.
pub(crate) const ENTRY_BYTES: usize = 8;

// An entry as bytes.
fn put_entry(bytes: &mut [u8], index: usize, left: u32, right: u32)
    requires bytes_len { length bytes.old ≡ 8 }
    requires index_lt_pair_limit { index < pair_limit }
    requires left_lt_pair_limit { left < pair_limit }
    requires right_lt_pair_limit { right < pair_limit }
    ensures { bytes.new ≡ entry_bytes (as_entry index left right) }
{
    bytes[..4].copy_from_slice(&(index as u32).to_le_bytes());
    bytes[4..6].copy_from_slice(&(left as u16).to_le_bytes());
    bytes[6..].copy_from_slice(&(right as u16).to_le_bytes());
}

// An entry more for a record that changed pixels, and none for one that did not: written where there is room for it behind
// those before it, and counted.
#[tactic(auto, using(std::proofs::lemmas::Bool::Decides::nat_tests), unfolding(crate::specs::Sight::one_more))]
fn list_entry(entries: &mut [u8], listed: usize, index: usize, left: u32, right: u32) -> usize
    requires listed_lt_pair_limit { listed < pair_limit }
    requires index_lt_pair_limit { index < pair_limit }
    requires left_lt_pair_limit { left < pair_limit }
    requires right_lt_pair_limit { right < pair_limit }
    ensures { listing result entries.new ≡ one_more (as_entry index left right) (listing listed entries.old) }
{
    if left + right == 0 {
        return listed;
    }
    if entries.len() / ENTRY_BYTES <= listed {
        return listed + 1;
    }
    let to = ENTRY_BYTES * listed;
    put_entry(&mut entries[to..to + ENTRY_BYTES], index, left, right);
    listed + 1
}

// The records on two chips in range over an image that may change, up to the first that is refused, which is given with its
// index. All entries are counted, and those that there is room for are written; gives how many they are.
fn walk(chips: Chips, ram: &mut [u8], trace: &[u8], entries: &mut [u8]) -> Result<usize, Refused>
    requires whole { Whole (as_panel chips.left chips.right ram.old) }
    requires trace_len_bound { length trace.now ≤ trace_limit }
    ensures walked { Walked (as_panel chips.left chips.right ram.old) trace.now entries.old result entries.new }
    ensures image { ram.new ≡ (trace_run (as_panel chips.left chips.right ram.old) trace.now).state.ram }
{
    let mut now = chips;
    let mut listed = 0;
    for (at, record) in trace.chunks_exact(RECORD_BYTES).enumerate() {
        let bus = Record::from([record[0], record[1], record[2], record[3]]);
        let seen = watch(bus, &mut now, ram).map_err(|refusal| Refused::new(refusal, at as u64))?;
        listed = list_entry(entries, listed, at, seen.left, seen.right);
    }
    Ok(listed)
}

// The walk over an image that stays as it is: the records run on a copy.
pub(crate) fn walk_over(
    chips: Chips,
    ram: &[u8],
    trace: &[u8],
    entries: &mut [u8],
) -> Result<usize, Refused>
    requires whole { Whole (as_panel chips.left chips.right ram.now) }
    requires trace_len_bound { length trace.now ≤ trace_limit }
    ensures { Walked (as_panel chips.left chips.right ram.now) trace.now entries.old result entries.new }
{
    let mut image = [0u8; IMAGE_BYTES];
    basics::copy(ram, &mut image);
    walk(chips, &mut image, trace, entries)
}
