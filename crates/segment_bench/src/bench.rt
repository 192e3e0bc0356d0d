ghost use Rattle.std.specs.Prelude.{◌≡◌, ◌+◌, ◌*◌, ◌≤◌, IfOk, None};
ghost use Rattle.dc_bounds.specs.LockNumbers.{period_fs};
ghost use Rattle.segment_file.specs.Legal.{IsLegal};
ghost use Rattle.segment_file.specs.Segment.{SegmentValue};
ghost use Rattle.run_of_file.specs.AtEnd.{IsAtEnd};
ghost use Rattle.run_of_file.specs.RunOfFile.{commissioned};
ghost use Rattle.segment_bench.specs.BenchRun.{HasRun};
ghost use Rattle.segment_bench.specs.NewBench.{IsNew};
ghost use Rattle.master_script.specs.declared.step.Stage.{Stage};

use crate::config::config;
use dc_base::NoMemory;
use dc_bench::Bench;
use dc_master::{Master, MasterError};
use segment_file::Segment;
use std::alloc::Global;
use wire_sim::Wire;

/// A bench for the segment, over which nothing was sent. All memory that a run needs is taken here.
pub fn new_bench(alloc: Global, segment: &Segment) -> Result<Bench, NoMemory>
    ensures new { IfOk result (λ bench. IsNew segment.now bench) }
    ensures stage { IfOk result (λ bench. bench.master.stage ≡ Stage.Fresh) }
    ensures refusal { IfOk result (λ bench. bench.master.refusal ≡ None) }
{
    let wire = Wire::build(alloc, segment)?;
    let config = config(alloc, segment)?;
    let master = Master::new(alloc, config)?;
    Ok(Bench::new(wire, master))
}

/// Makes the run of the file up to the end of commissioning, over a new bench of its segment. The errors are
/// those of `Master::commission`.
pub fn commission(bench: &mut Bench) -> Result<(), MasterError>
    requires stage { bench.old.master.stage ≡ Stage.Fresh }
    requires refusal { bench.old.master.refusal ≡ None }
    ensures { (s : SegmentValue) → IsNew s bench.old → IsAtEnd s None (commissioned s) bench.new.wire bench.new.master result }
{
    bench.commission()
}

/// Makes the whole run of the file over a new bench of its segment: commissioning, settling, arming, the run
/// phase, and the time up to the end of the run. The errors are those of the master's calls.
pub fn run(bench: &mut Bench, segment: &Segment) -> Result<(), MasterError>
    requires stage { bench.old.master.stage ≡ Stage.Fresh }
    requires refusal { bench.old.master.refusal ≡ None }
    requires new { IsNew segment.now bench.old }
    ensures { HasRun segment.now bench.new result }
{
    if let Err(error) = bench.commission() {
        return Err(error);
    }
    if let Err(error) = bench.settle() {
        return Err(error);
    }
    if let Err(error) = bench.arm() {
        return Err(error);
    }
    if let Err(error) = bench.run(segment.run_frames()) {
        return Err(error);
    }
    bench.finish(end_fs(segment, bench.wire().sent()));
    Ok(())
}

// The end of a run of so many sendings (fs): a frame period behind the last one.
fn end_fs(segment: &Segment, sent: u32) -> u64
    requires legal { IsLegal segment.now }
    requires few { sent ≤ 203097 }
    ensures is { result ≡ (sent + 1) * period_fs segment.now.head.frame_ns }
    ensures few { result ≤ 8000000000000000000 }
{
    (u64::from(sent) + 1) * (1_000_000 * u64::from(segment.frame_ns()))
}
