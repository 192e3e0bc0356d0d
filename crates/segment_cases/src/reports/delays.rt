ghost use Rattle.std.specs.Prelude.{IfOk};
ghost use Rattle.edge_report.specs.Delays.{AreDelays};

use crate::reports::edges::slave;
use segment_file::{Segment, has_clock};
use std::alloc::{AllocError, Global};

/// A delay for each clock.
pub(crate) fn delays_of(alloc: Global, segment: &Segment) -> Result<Vec<Option<u64>>, AllocError>
    ensures { IfOk result (λ v. AreDelays segment.now v.items) }
{
    let mut delays = Vec::new(alloc);
    let slaves = segment.tree().len() as u16;
    for position in 0..slaves {
        let delay = 360 * u64::from(position);
        let is_clock = has_clock(slave(segment, position).kind);
        delays.push(is_clock.then_some(delay))?;
    }
    Ok(delays)
}
