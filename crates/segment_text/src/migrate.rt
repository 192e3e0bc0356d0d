ghost use Rattle.std.specs.Prelude.{◌≡◌, ◌≤◌, IfOk, length, map};
ghost use Rattle.std.specs.List.{All};
ghost use Rattle.segment_shape.specs.Seen.{head_seen};
ghost use Rattle.segment_file.specs.Legal.{IsLegal};
ghost use Rattle.segment_file.specs.Seen.{row_seen};
ghost use Rattle.segment_text.specs.Migrated.{migrated};

use dc_base::NoMemory;
use loss_list::LossList;
use osc_clock::{RateList, RateRow};
use segment_file::{LossRow, Segment, SlaveRow};
use segment_shape::Head;
use std::alloc::{AllocError, Global};

fn copied_rates(rates: &[RateRow]) -> RateList
    requires { length rates.now ≤ 64 }
    ensures { result.items ≡ rates.now }
{
    let mut copy = RateList::new();
    for rate in rates {
        copy.push(*rate);
    }
    copy
}

fn copied_row(row: &SlaveRow) -> SlaveRow
    ensures { row_seen result ≡ row_seen row.now }
{
    SlaveRow {
        id: row.id,
        kind: row.kind,
        tp_ns: row.tp_ns,
        tf_ns: row.tf_ns,
        cable_ps: row.cable_ps,
        above: row.above,
        start: row.start,
        phase_fs: row.phase_fs,
        period_fs: row.period_fs,
        rates: copied_rates(&row.rates),
        shift_ns: row.shift_ns,
        sync1_ns: row.sync1_ns,
    }
}

fn copied_rows(alloc: Global, rows: &[SlaveRow]) -> Result<Vec<SlaveRow>, AllocError>
    ensures { IfOk result (λ copy. map row_seen copy.items ≡ map row_seen rows.now) }
{
    let mut copy = Vec::new(alloc);
    for row in rows {
        copy.push(copied_row(row))?;
    }
    Ok(copy)
}

fn copied_losses(alloc: Global, losses: &[LossRow]) -> Result<LossList, AllocError>
    requires { All (λ r. (1 ≤ r.number) × (r.number ≤ 100000)) losses.now }
    ensures { IfOk result (λ copy. copy ≡ losses.now) }
{
    let mut copy = LossList::new(alloc)?;
    for loss in losses {
        copy.push(*loss)?;
    }
    Ok(copy)
}

// The head in version 2.
fn newest_head(segment: &Segment) -> Head
    ensures { head_seen result ≡ (migrated segment.now).head }
{
    Head {
        version: 2,
        ppm: segment.ppm(),
        frame_ns: segment.frame_ns(),
        speed: segment.speed(),
        loss_run: segment.loss_run(),
        epoch_ns: segment.epoch_ns(),
        cycle_ns: segment.cycle_ns(),
        cycles: segment.cycles(),
    }
}

fn migrate(alloc: Global, segment: &Segment) -> Result<Segment, AllocError>
    ensures { IfOk result (λ s. s ≡ migrated segment.now) }
{
    let rows = copied_rows(alloc, segment.rows())?;
    let losses = copied_losses(alloc, segment.losses())?;
    Segment::from_rows(alloc, newest_head(segment), rows, losses)
}

/// The same segment in version 2 of the format, whose files may list changes of periods.
pub fn migrated(alloc: Global, segment: &Segment) -> Result<Segment, NoMemory>
    ensures { IfOk result (λ s. s ≡ migrated segment.now) }
{
    let migrated = migrate(alloc, segment)?;
    Ok(migrated)
}
