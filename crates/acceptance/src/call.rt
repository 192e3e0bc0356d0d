ghost use Rattle.std.specs.Prelude.{IfOk, map, string_bytes};
ghost use Rattle.acceptance.specs.Runs.{HoldsRun};

use crate::ends::Ends;
use dc_bench::Bench;
use dc_top::{Outcome, dc_main};
use std::alloc::Global;

/// What a call of the top call answered, wrote and left.
#[derive(Drop)]
pub(crate) struct Called {
    pub(crate) outcome: Outcome,
    pub(crate) written: Vec<u8>,
    /// How many reads and writes have failed.
    pub(crate) faults: (u64, u64),
    pub(crate) bench: Option<Bench>,
}

/// Calls the top call over such ends.
pub(crate) fn call(alloc: Global, words: &[String], ends: &Ends) -> anyhow::Result<Called>
    ensures { IfOk result (λ c. HoldsRun (map string_bytes words.now) ends.now.input.items c.outcome c.bench) }
{
    let mut source = ends.source(alloc)?;
    let mut sink = ends.sink(alloc)?;
    let mut bench = None;
    let outcome = dc_main(alloc, words, &mut source, &mut sink, &mut bench);
    Ok(Called {
        outcome,
        written: Vec::from_slice(alloc, sink.bytes())?,
        faults: (source.faults(), sink.faults()),
        bench,
    })
}
