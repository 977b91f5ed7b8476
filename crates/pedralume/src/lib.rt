// The calls of the C side, on byte slices and one 64-bit number; those of the feed are in feed_calls. The header is
// host/include/pedralume.h.

#![tactic(auto)]

mod feed_bytes;
pub mod feed_calls;
mod packing;
pub mod version;

ghost use Rattle.std.specs.Prelude.{◌≡◌};
ghost use Rattle.pedralume.specs.Call.{replay_call, frame_call, repaint_call, sparing_call, changes_call};
ghost use Rattle.basics.specs.Verdict.{result_of};
ghost use Rattle.sed1520.specs.Replies.{in_place};

use crate::packing::{pack, pack_verdict};
use basics::refusal::Refusal;
use panel::chips::{CHIPS_BYTES, chips_in};

// The replay of a trace on the chips' bytes, the image and an answer buffer.
#[unsafe(no_mangle)]
#[tactic(auto, using(crate::proofs::AnswersUnpack::replay_small))]
pub extern "C" fn pedralume_replay(
    chips: &mut [u8],
    ram: &mut [u8],
    trace: &[u8],
    answers: &mut [u8],
) -> u64
    ensures { in_place result chips.new ram.new answers.new
        ≡ replay_call chips.old ram.old trace.now answers.old }
{
    let tally = trace::replay_in_place(chips, ram, trace, answers);
    pack(tally.number, tally.place, tally.compared, tally.differing)
}

// The frame that the chips' bytes and the image show, into a frame buffer.
#[unsafe(no_mangle)]
#[tactic(auto, using(crate::proofs::OnChips::call_cases), unfolding(crate::specs::Call::on_chips))]
pub extern "C" fn pedralume_frame(chips: &[u8], ram: &[u8], frame: &mut [u8]) -> u64
    ensures { result_of result frame.new ≡ frame_call chips.now ram.now frame.old }
{
    if chips.len() != CHIPS_BYTES {
        return pack(Refusal::WrongSize.number(), 0, 0, 0);
    }
    pack_verdict(frame::frame(chips_in(chips), ram, frame))
}

// The records that bring a picture to the panel of the chips' bytes, into an output buffer.
#[unsafe(no_mangle)]
#[tactic(auto, using(crate::proofs::OnChips::call_cases), unfolding(crate::specs::Call::on_chips))]
pub extern "C" fn pedralume_repaint(chips: &[u8], picture: &[u8], output: &mut [u8]) -> u64
    ensures { result_of result output.new ≡ repaint_call chips.now picture.now output.old }
{
    if chips.len() != CHIPS_BYTES {
        return pack(Refusal::WrongSize.number(), 0, 0, 0);
    }
    pack_verdict(repaint::repaint(chips_in(chips), picture, output))
}

// The records of a sparing repaint, which brings a picture to the panel of the chips' bytes and the image, into an output
// buffer.
#[unsafe(no_mangle)]
#[tactic(auto, using(crate::proofs::OnChips::call_cases), unfolding(crate::specs::Call::on_chips))]
pub extern "C" fn pedralume_sparing_repaint(
    chips: &[u8],
    ram: &[u8],
    picture: &[u8],
    output: &mut [u8],
) -> u64
    ensures { result_of result output.new
        ≡ sparing_call chips.now ram.now picture.now output.old }
{
    if chips.len() != CHIPS_BYTES {
        return pack(Refusal::WrongSize.number(), 0, 0, 0);
    }
    pack_verdict(repaint::sparing::sparing_repaint(chips_in(chips), ram, picture, output))
}

// The records of a trace that changed what the panel shows, on the chips' bytes and the image, into a buffer of entries.
#[unsafe(no_mangle)]
#[tactic(auto, using(crate::proofs::OnChips::call_cases), unfolding(crate::specs::Call::on_chips))]
pub extern "C" fn pedralume_changes(
    chips: &[u8],
    ram: &[u8],
    trace: &[u8],
    entries: &mut [u8],
) -> u64
    ensures { result_of result entries.new
        ≡ changes_call chips.now ram.now trace.now entries.old }
{
    if chips.len() != CHIPS_BYTES {
        return pack(Refusal::WrongSize.number(), 0, 0, 0);
    }
    pack_verdict(visible::changes(chips_in(chips), ram, trace, entries))
}
