ghost use Rattle.std.specs.Prelude.{◌≡◌, ◌<◌, ◌≤◌, IfErr, IfOk, Ok, Some, length, map, option_map, pos, ◌≤ℤ◌, slice_index};
ghost use Rattle.serde_json.specs.Data.{Data};
ghost use Rattle.cable_tree.specs.FrameOrder.{order};
ghost use Rattle.cable_tree.specs.Positions.{position_of};
ghost use Rattle.loss_list.specs.Losses.{loss_at};
ghost use Rattle.segment_shape.specs.Ranges.{IsFile};
ghost use Rattle.segment_shape.specs.Seen.{head_seen, shape_seen};
ghost use Rattle.segment_shape.specs.ShapeOf.{file_of};
ghost use Rattle.segment_file.specs.Faults.{frames_of_run, lock_in, step_of};
ghost use Rattle.segment_file.specs.Legal.{IsLegal};
ghost use Rattle.segment_file.specs.Placed.{placed};
ghost use Rattle.segment_file.specs.Seen.{row_seen};
ghost use Rattle.segment_file.specs.Segment.{clocks, counts_of, measuring, reference_row, row_at, signals, tree_rows};
ghost use Rattle.segment_file.specs.Told.{IsRefusal, IsSegmentText, IsTold};

use crate::checks::{check, tree_of};
use crate::counts::{Counts, counts_of};
use crate::frame_checks::{frames_of_run, lock_in};
use crate::placing::{placed_rows, tree_rows};
use crate::seg_error::SegError;
use crate::slave_row::{SlaveRow, clock_flags};
use crate::time_checks::step_of;
use cable_tree::Tree;
use dc_bounds::reference;
use loss_list::{LossList, LossRow, Phase};
use segment_shape::{Head, Shape, read_shape};
use std::alloc::{AllocError, Global};
use std::marker::Model;

/// A legal segment: its slaves with their cables and the oscillators of their clocks, the numbers of the
/// head, and the frames that are lost.
#[derive(Debug, Drop)]
pub struct Segment {
    head: Head,
    rows: Vec<SlaveRow>,
    losses: LossList,
    tree: Tree,
    reference: u16,
    counts: Counts,
}

impl Model for Segment {
    ghost use Rattle.segment_file.specs.Segment.{SegmentValue};

    ghost Value = { SegmentValue };

    ghost use Rattle.segment_file.specs.InsideSegment.{value_of, IsKept};

    ghost view = { value_of };

    ghost invariant = { IsKept };
}

impl Segment {
    /// The segment of this head and of these rows and losses, which are those of a legal segment. Want of
    /// memory alone refuses it.
    pub fn from_rows(
        alloc: Global,
        head: Head,
        rows: Vec<SlaveRow>,
        losses: LossList,
    ) -> Result<Segment, AllocError>
        requires { IsLegal (record { head = head_seen head; rows = map row_seen rows.items; losses = losses }) }
        ensures { IfOk result (λ s. s ≡ record { head = head_seen head; rows = map row_seen rows.items; losses = losses }) }
    {
        let tree_rows = tree_rows(alloc, &rows)?;
        let Ok(tree) = Tree::new(alloc, &tree_rows) else {
            return Err(AllocError);
        };
        let reference = reference(&tree, &clock_flags(&rows)).unwrap();
        let counts = counts_of(&rows);
        Ok(Segment {
            head,
            rows,
            losses,
            tree,
            reference,
            counts,
        })
    }

    /// Of the format: 1, or 2 where rows may list changes of their period.
    pub fn version(&self) -> u8
        ensures is { result ≡ self.now.head.version }
        ensures legal { IsLegal self.now }
    {
        self.head.version
    }

    /// How far an oscillator's period may be from 10 ns, in parts per million.
    pub fn ppm(&self) -> u32
        ensures is { result ≡ self.now.head.ppm }
        ensures legal { IsLegal self.now }
    {
        self.head.ppm
    }

    /// From one frame to the next.
    pub fn frame_ns(&self) -> u32
        ensures is { result ≡ self.now.head.frame_ns }
        ensures legal { IsLegal self.now }
    {
        self.head.frame_ns
    }

    /// The speed counter start (ESC data sheet, 0x0930).
    pub fn speed(&self) -> u16
        ensures is { result ≡ self.now.head.speed }
        ensures legal { IsLegal self.now }
    {
        self.head.speed
    }

    /// The most drift frames that are lost in a row.
    pub fn loss_run(&self) -> u8
        ensures is { result ≡ self.now.head.loss_run }
        ensures legal { IsLegal self.now }
    {
        self.head.loss_run
    }

    /// The system time at the latch.
    pub fn epoch_ns(&self) -> u64
        ensures is { result ≡ self.now.head.epoch_ns }
        ensures legal { IsLegal self.now }
    {
        self.head.epoch_ns
    }

    /// The SYNC0 cycle.
    pub fn cycle_ns(&self) -> u32
        ensures is { result ≡ self.now.head.cycle_ns }
        ensures legal { IsLegal self.now }
    {
        self.head.cycle_ns
    }

    /// How many SYNC0 cycles are run.
    pub fn cycles(&self) -> u32
        ensures is { result ≡ self.now.head.cycles }
        ensures legal { IsLegal self.now }
    {
        self.head.cycles
    }

    /// The slaves, in the order of the file.
    pub fn rows(&self) -> &[SlaveRow]
        ensures is { map row_seen result.now ≡ self.now.rows }
        ensures legal { IsLegal self.now }
    {
        &self.rows
    }

    /// The frames that are listed as lost, in the order of the file.
    pub fn losses(&self) -> &[LossRow]
        ensures is { result.now ≡ self.now.losses }
        ensures legal { IsLegal self.now }
    {
        self.losses.rows()
    }

    /// The slaves as a tree of cables.
    pub fn tree(&self) -> &Tree
        ensures is { result.now ≡ tree_rows self.now.rows }
        ensures legal { IsLegal self.now }
    {
        &self.tree
    }

    /// The row of the reference clock.
    pub fn reference(&self) -> u16
        ensures is { reference_row self.now.rows ≡ Some result }
        ensures row { result < length self.now.rows }
    {
        self.reference
    }

    /// The number of slaves.
    pub fn slaves(&self) -> u16
        ensures { result ≡ length self.now.rows }
    {
        self.counts.slaves
    }

    /// The number of clocks.
    pub fn clocks(&self) -> u16
        ensures { result ≡ clocks self.now.rows }
    {
        self.counts.clocks
    }

    /// The number of slaves that take receive times.
    pub fn measuring(&self) -> u16
        ensures { result ≡ measuring self.now.rows }
    {
        self.counts.measuring
    }

    /// The number of signals: SYNC0 of each clock, and SYNC1 where it is asked for.
    pub fn signals(&self) -> u16
        ensures { result ≡ signals self.now.rows }
    {
        self.counts.signals
    }

    /// The row at a position, the place in frame order counted from 0.
    pub fn row_at(&self, position: u16) -> u16
        requires { position < length self.now.rows }
        ensures is { result ≡ row_at self.now position }
        ensures row { result < length self.now.rows }
    {
        self.tree.order()[usize::from(position)]
    }

    /// The position of the reference clock.
    pub fn reference_position(&self) -> u16
        ensures within { result < length self.now.rows }
        ensures is { reference_row self.now.rows ≡ Some (row_at self.now result) }
        ensures position { option_map (position_of (tree_rows self.now.rows)) (reference_row self.now.rows) ≡ Some result }
    {
        self.tree.position(self.reference)
    }

    /// How many slaves the frame of this number and kind reaches, where it is listed as lost; None where it is not.
    pub fn loss(&self, phase: Phase, number: u32) -> Option<u16>
        ensures { result ≡ loss_at self.now.losses phase number }
    {
        self.losses.after(phase, number)
    }

    /// μ, in ns: what is surely gained on a difference between two drift frames that come; at least 1.
    pub fn lock_step(&self) -> i128
        ensures is { result ≡ step_of self.now.head }
        ensures some { pos 1 ≤ℤ step_of self.now.head }
    {
        step_of(self.head)
    }

    /// K: the number of drift frames after which the clocks are together; at most 100,000.
    pub fn lock_in(&self) -> u32
        ensures is { result ≡ lock_in self.now.head (counts_of self.now.rows) }
        ensures few { result ≤ 100000 }
    {
        lock_in(self.head, self.counts) as u32
    }

    /// The number of drift frames that the run phase sends; at most 100,000.
    pub fn run_frames(&self) -> u32
        ensures is { result ≡ frames_of_run self.now.head (counts_of self.now.rows) }
        ensures few { result ≤ 100000 }
    {
        frames_of_run(self.head, self.counts) as u32
    }
}

// The segment that a shape describes, where it passes the checks of the tree and those behind it.
fn segment_of(alloc: Global, shape: Shape) -> Result<Segment, SegError>
    requires said { (d : Data) × (file_of d ≡ Ok (shape_seen shape)) }
    requires file { IsFile (shape_seen shape) }
    ensures ok { IfOk result (λ s. (s ≡ placed (shape_seen shape)) × IsLegal s) }
    ensures err { IfErr result (IsRefusal (shape_seen shape)) }
{
    let rows = placed_rows(alloc, shape.rows)?;
    let tree = tree_of(alloc, &rows)?;
    let checked = check(shape.head, &rows, &tree, &shape.losses)?;
    Ok(Segment {
        head: shape.head,
        rows,
        losses: shape.losses,
        tree,
        reference: checked.reference,
        counts: checked.counts,
    })
}

/// Reads the bytes of a segment file.
///
/// The first check that fails is answered, in the order of [`SegError`].
pub fn read_segment(alloc: Global, bytes: &[u8]) -> Result<Segment, SegError>
    ensures read { IfOk result (IsSegmentText bytes.now) }
    ensures refused { IfErr result (IsTold bytes.now) }
{
    let shape = read_shape(alloc, bytes)?;
    segment_of(alloc, shape)
}
