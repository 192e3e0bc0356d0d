// What the words of the slaves say of the segment: its tree and the reference.
ghost use Rattle.std.specs.Prelude.{◌≡◌, ◌<◌, ◌≤◌, length, map, Ok, Err, IfErr, IfOk, IfSome, OnOk};
ghost use Rattle.std.specs.List.{find};
ghost use Rattle.dc_bounds.specs.Weight.{flag};
ghost use Rattle.dc_delay.specs.Refusals.{first_timed, first_unmeasurable};
ghost use Rattle.dc_delay.specs.ShapeRows.{positions};
ghost use Rattle.master_script.specs.Slaves.{clocks, is_clock, is_measuring, judged_clocks, judgement, measuring, tree_told};

use crate::slave_words::SlaveWords;
use arrayvec::ArrayVec;
use dc_delay::{DelayError, judge};
use dc_topology::{Shape, TopologyError, topology};
use master_script::Refusal;

/// The position of the reference, which is the first clock. `shape` becomes the tree of the slaves. After a refusal it says
/// nothing of `shape`.
#[tactic(auto, unfolding(master_script::specs::Slaves::judgement))]
pub fn judge_slaves(slaves: &[SlaveWords], shape: &mut Shape) -> Result<u16, Refusal>
    requires { length slaves.now ≤ 256 }
    ensures is { result ≡ judgement slaves.now }
    ensures tree { OnOk result (tree_told slaves.now ≡ Ok shape.new) }
    ensures whole { OnOk result (length shape.new ≡ length slaves.now) }
    ensures within { IfOk result (λ r. r < length slaves.now) }
    ensures clocks { OnOk result (1 ≤ length (clocks slaves.now)) }
    ensures measuring { OnOk result (1 ≤ length (measuring slaves.now)) }
{
    match tree(slaves, shape) {
        Ok(()) => judge_clocks(slaves, shape),
        Err(error) => Err(Refusal::Topology(error)),
    }
}

// The tree of the slaves, by their statuses.
fn tree(slaves: &[SlaveWords], shape: &mut Shape) -> Result<(), TopologyError>
    requires { length slaves.now ≤ 256 }
    ensures ok { OnOk result (tree_told slaves.now ≡ Ok shape.new) }
    ensures whole { OnOk result (length shape.new ≡ length slaves.now) }
    ensures refused { IfErr result (λ e. tree_told slaves.now ≡ Err e) }
{
    topology(&statuses(slaves), shape)
}

// The reference of slaves that stand in a tree.
fn judge_clocks(slaves: &[SlaveWords], shape: &Shape) -> Result<u16, Refusal>
    requires few { length slaves.now ≤ 256 }
    requires whole { length shape.now ≡ length slaves.now }
    ensures is { result ≡ judged_clocks (first_timed shape.now (flag (map is_clock slaves.now)))
        (first_unmeasurable shape.now (flag (map is_measuring slaves.now))) }
    ensures within { IfOk result (λ r. r < length slaves.now) }
    ensures clocks { OnOk result (1 ≤ length (clocks slaves.now)) }
    ensures measuring { OnOk result (1 ≤ length (measuring slaves.now)) }
{
    let clocks = clocks(slaves);
    match judge(shape, &measuring(slaves), &clocks) {
        Ok(()) => match first(&clocks) {
            Some(reference) => Ok(reference),
            None => Err(Refusal::NoReference),
        },
        Err(DelayError::NoReference) => Err(Refusal::NoReference),
        Err(DelayError::Unmeasurable(position)) => Err(Refusal::Unmeasurable(position)),
    }
}

// The DL status of each slave.
fn statuses(slaves: &[SlaveWords]) -> ArrayVec<u16, 256>
    requires { length slaves.now ≤ 256 }
    ensures { result.items ≡ map (λ s. s.status) slaves.now }
{
    let mut statuses = ArrayVec::new();
    for slave in slaves {
        statuses.push(slave.status);
    }
    statuses
}

/// Which slaves measure, in frame order. Where they hang it does not say.
pub fn measuring(slaves: &[SlaveWords]) -> ArrayVec<bool, 256>
    requires { length slaves.now ≤ 256 }
    ensures { result.items ≡ map is_measuring slaves.now }
{
    let mut measuring = ArrayVec::new();
    for slave in slaves {
        measuring.push(slave.is_measuring());
    }
    measuring
}

/// Which slaves are clocks, in frame order. Where they hang it does not say.
pub fn clocks(slaves: &[SlaveWords]) -> ArrayVec<bool, 256>
    requires { length slaves.now ≤ 256 }
    ensures { result.items ≡ map is_clock slaves.now }
{
    let mut clocks = ArrayVec::new();
    for slave in slaves {
        clocks.push(slave.is_clock());
    }
    clocks
}

// The position of the first clock.
fn first(clocks: &[bool]) -> Option<u16>
    requires { length clocks.now ≤ 256 }
    ensures is { result ≡ find (flag clocks.now) (positions (length clocks.now)) }
    ensures within { IfSome result (λ r. r < length clocks.now) }
{
    for position in 0..clocks.len() {
        if clocks[position] {
            return Some(position as u16);
        }
    }
    None
}
