// Numbers 1 to 3 of a call that runs a trace on the panel.
ghost use Rattle.std.specs.Prelude.{[], ◌≡◌};
ghost use Rattle.basics.specs.Table.{verdict_by};
ghost use Rattle.basics.specs.Refusals.{refused_or};
ghost use Rattle.basics.specs.Verdict.{verdict};
ghost use Rattle.panel.specs.Trace.{trace_sizes_wrong, trace_table};

use crate::chips::IMAGE_BYTES;
use basics::refusal::Refusal;
use basics::verdict::Refused;
use sed1520::bus::RECORD_BYTES;

// The most bytes that a trace, or a part of a feed, may have.
pub const TRACE_BYTES: usize = 65536;

// Number 1: more bytes than one call may take, an image that is not 640, or another size of the call that is wrong.
#[tactic(auto, using(std::proofs::lemmas::Bool::Decides::nat_tests), unfolding(crate::specs::Trace::trace_sizes_wrong))]
pub fn sizes_wrong(bytes: usize, ram: usize, more: bool) -> bool
    ensures { result ≡ trace_sizes_wrong bytes ram more }
{
    bytes > TRACE_BYTES || ram != IMAGE_BYTES || more
}

// Refuses by numbers 1 to 3, lowest first: a size that is wrong, a chip out of range, a trace that ends within a record.
pub fn trace_verdict(
    wrong: bool,
    left_out: bool,
    right_out: bool,
    bytes: usize,
) -> Result<(), Refused>
    ensures { refused_or (verdict 0 0) result ≡ verdict_by (trace_table wrong left_out right_out bytes []) (verdict 0 0) }
{
    if wrong {
        return Err(Refused::new(Refusal::WrongSize, 0));
    }
    Refusal::StateOutOfRange.of_either(left_out, right_out)?;
    if bytes % RECORD_BYTES != 0 {
        return Err(Refused::new(Refusal::CutRecord, (bytes / RECORD_BYTES) as u64));
    }
    Ok(())
}
