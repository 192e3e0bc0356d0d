ghost use Rattle.std.specs.Prelude.{◌≡◌, ◌≤◌, [], IfOk, map};
ghost use Rattle.segment_shape.specs.Seen.{head_seen};
ghost use Rattle.segment_file.specs.Legal.{IsLegal};
ghost use Rattle.segment_file.specs.Seen.{row_seen};
ghost use Rattle.segment_draw.specs.Draws.{draws_from, seeded};
ghost use Rattle.segment_draw.specs.Generated.{drawn_head, generated, rows_from};

use crate::draws::{draw_slave, seeded};
use crate::slave::row_of;
use dc_base::NoMemory;
use loss_list::LossList;
use segment_file::{Segment, SlaveRow};
use segment_shape::Head;
use std::alloc::{AllocError, Global};

/// The head of every generated segment.
fn head() -> Head
    ensures { head_seen result ≡ drawn_head }
{
    Head {
        version: 1,
        ppm: 50,
        frame_ns: 1_000_000,
        speed: 4096,
        loss_run: 2,
        epoch_ns: 800_000_000_000_000_000,
        cycle_ns: 1_000_000,
        cycles: 4,
    }
}

// The slaves of a seed.
fn slaves(alloc: Global, n: u16, seed: u64) -> Result<Vec<SlaveRow>, AllocError>
    requires { n ≤ 256 }
    ensures { IfOk result (λ rows. map row_seen rows.items ≡ rows_from [] (draws_from n (seeded seed))) }
{
    let mut rows = Vec::new(alloc);
    let mut state = seeded(seed);
    for _ in 0..n {
        let draws = draw_slave(&mut state);
        let row = row_of(&rows, &draws);
        rows.push(row)?;
    }
    Ok(rows)
}

fn drawn_segment(alloc: Global, n: u16, seed: u64) -> Result<Segment, AllocError>
    requires { (1 ≤ n) × (n ≤ 256) }
    ensures { IfOk result (λ s. s ≡ generated n seed) }
{
    let rows = slaves(alloc, n, seed)?;
    let losses = LossList::new(alloc)?;
    Segment::from_rows(alloc, head(), rows, losses)
}

/// The segment of n slaves that a seed gives, always the same. It has a 1 ms frame period and no losses; its
/// slaves are 64-bit and 32-bit clocks, clockless slaves among them.
pub fn generate(alloc: Global, n: u16, seed: u64) -> Result<Segment, NoMemory>
    requires { (1 ≤ n) × (n ≤ 256) }
    ensures is { IfOk result (λ s. s ≡ generated n seed) }
    ensures legal { IsLegal (generated n seed) }
{
    let segment = drawn_segment(alloc, n, seed)?;
    Ok(segment)
}
