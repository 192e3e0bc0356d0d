ghost use Rattle.std.specs.Prelude.{◌≤◌, IfOk, IfSome};
ghost use Rattle.master_steps.specs.ConfigRange.{IsConfig, IsKind, IsPlan, IsSync1, value_of};
ghost use Rattle.frame_cases.specs.Slaves.{AreSlaves};

use crate::words::Words;
use dc_delay::Kind;
use dc_master::{Config, SyncPlan};
use std::alloc::{AllocError, Global};

/// The configuration of these words, none where they name no slave.
pub(crate) fn config(alloc: Global, words: &mut Words<'_>) -> Result<Option<Config>, AllocError>
    ensures { IfOk result (λ o. IfSome o (λ config. IsConfig (value_of config))) }
{
    let frame_ns = words.number(50_000, 10_000_000) as u32;
    let speed = words.number(128, 16_383) as u16;
    let loss_run = words.number(0, 15) as u8;
    let epoch_ns = words.number(0, 4_000_000_000_000_000_000);
    let lock_in = words.number(0, 100_000) as u32;
    let cycle_ns = words.number(50_000, 500_000_000) as u32;
    let (kinds, plans) = slaves(alloc, words, cycle_ns)?;
    if kinds.is_empty() {
        return Ok(None);
    }
    Ok(Some(Config {
        kinds,
        plans,
        frame_ns,
        speed,
        loss_run,
        epoch_ns,
        lock_in,
        cycle_ns,
    }))
}

// At most 256 slaves; the words of others are left.
#[tactic(auto, using(crate::proofs::More::slaves_more))]
fn slaves(
    alloc: Global,
    words: &mut Words<'_>,
    cycle_ns: u32,
) -> Result<(Vec<Kind>, Vec<SyncPlan>), AllocError>
    requires { 1 ≤ cycle_ns }
    ensures { IfOk result (λ s. AreSlaves cycle_ns s.0.items s.1.items) }
{
    let mut kinds = Vec::new(alloc);
    let mut plans = Vec::new(alloc);
    for _slave in 0..words.most() {
        if words.is_empty() || kinds.len() >= 256 {
            break;
        }
        let (kind, plan) = slave(words, cycle_ns);
        kinds.push(kind)?;
        plans.push(plan)?;
    }
    Ok((kinds, plans))
}

fn slave(words: &mut Words<'_>, cycle_ns: u32) -> (Kind, SyncPlan)
    requires { 1 ≤ cycle_ns }
    ensures { IsKind result.0 × IsPlan cycle_ns result.1 }
{
    let kind = Kind {
        tp_ns: words.number(1, 10_000) as u16,
        tf_ns: words.number(1, 10_000) as u16,
    };
    let shift_ns = words.number(0, u64::from(cycle_ns) - 1) as u32;
    let sync1_ns = sync1(words, cycle_ns);
    (kind, SyncPlan { shift_ns, sync1_ns })
}

fn sync1(words: &mut Words<'_>, cycle_ns: u32) -> Option<u32>
    ensures { IsSync1 cycle_ns result }
{
    match words.number_or_none() {
        None => None,
        Some(ns) if 1 <= ns && ns < u64::from(cycle_ns) => Some(ns as u32),
        Some(_) => {
            words.refuse();
            None
        }
    }
}
