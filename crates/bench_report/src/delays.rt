//! The measured delays of a bench.

ghost use Rattle.std.specs.Prelude.{◌≡◌, IfOk};
ghost use Rattle.edge_report.specs.Delays.{AreDelays};

use dc_bench::Bench;
use segment_file::Segment;
use std::alloc::{AllocError, Global};

/// The delays that the master of the bench has measured, by position (ns); None where no clock stands.
pub fn measured_delays(
    alloc: Global,
    segment: &Segment,
    bench: &Bench,
) -> Result<Vec<Option<u64>>, AllocError>
    requires { AreDelays segment.now bench.now.master.delays }
    ensures { IfOk result (λ delays. delays.items ≡ bench.now.master.delays) }
{
    let slaves = segment.tree().len() as u16;
    let mut delays = Vec::new(alloc);
    for position in 0..slaves {
        delays.push(bench.master().delay(position))?;
    }
    Ok(delays)
}
