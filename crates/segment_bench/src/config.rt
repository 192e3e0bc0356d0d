//! What the master of a segment is told.

ghost use Rattle.std.specs.Prelude.{◌≡◌, ◌<◌, IfOk, length, map};
ghost use Rattle.cable_tree.specs.FrameOrder.{order};
ghost use Rattle.master_steps.specs.ConfigRange.{value_of};
ghost use Rattle.segment_file.specs.Legal.{IsLegal};
ghost use Rattle.segment_file.specs.Segment.{row_of, tree_rows};
ghost use Rattle.run_of_file.specs.MasterOfFile.{kind_of, plan_of, master_of};

use dc_delay::Kind;
use dc_master::{Config, SyncPlan};
use segment_file::Segment;
use std::alloc::{AllocError, Global};

// How long the slave of a row keeps a frame.
fn kind(segment: &Segment, row: u16) -> Kind
    requires { row < length segment.now.rows }
    ensures { result ≡ kind_of (row_of segment.now row) }
{
    let slave = &segment.rows()[usize::from(row)];
    Kind {
        tp_ns: slave.tp_ns,
        tf_ns: slave.tf_ns,
    }
}

// What the SYNC signals of the slave of a row are to do.
fn plan(segment: &Segment, row: u16) -> SyncPlan
    requires { row < length segment.now.rows }
    ensures { result ≡ plan_of (row_of segment.now row) }
{
    let slave = &segment.rows()[usize::from(row)];
    SyncPlan {
        shift_ns: slave.shift_ns,
        sync1_ns: slave.sync1_ns,
    }
}

// The kinds of all slaves, in frame order.
fn kinds(alloc: Global, segment: &Segment) -> Result<Vec<Kind>, AllocError>
    ensures legal { IsLegal segment.now }
    ensures is { IfOk result (λ kinds. kinds.items ≡ map (λ r. kind_of (row_of segment.now r)) (order (tree_rows segment.now.rows))) }
{
    let mut kinds = Vec::new(alloc);
    for row in segment.tree().order() {
        kinds.push(kind(segment, *row))?;
    }
    Ok(kinds)
}

// The plans of all slaves, in frame order.
fn plans(alloc: Global, segment: &Segment) -> Result<Vec<SyncPlan>, AllocError>
    ensures { IfOk result (λ plans. plans.items ≡ map (λ r. plan_of (row_of segment.now r)) (order (tree_rows segment.now.rows))) }
{
    let mut plans = Vec::new(alloc);
    for row in segment.tree().order() {
        plans.push(plan(segment, *row))?;
    }
    Ok(plans)
}

/// The configuration of the segment's master.
#[tactic(auto, unfolding(run_of_file::specs::MasterOfFile::master_of))]
pub(crate) fn config(alloc: Global, segment: &Segment) -> Result<Config, AllocError>
    ensures legal { IsLegal segment.now }
    ensures is { IfOk result (λ config. value_of config ≡ master_of segment.now) }
{
    let kinds = kinds(alloc, segment)?;
    let plans = plans(alloc, segment)?;
    Ok(Config {
        kinds,
        plans,
        frame_ns: segment.frame_ns(),
        speed: segment.speed(),
        loss_run: segment.loss_run(),
        epoch_ns: segment.epoch_ns(),
        lock_in: segment.lock_in(),
        cycle_ns: segment.cycle_ns(),
    })
}
