//! What the commands write that drive a master over a wire, or the answer where they write nothing.

ghost use Rattle.std.specs.Prelude.{◌≡◌, ◌≤◌, None, Some, IfErr, IfOk, Ok};
ghost use Rattle.master_script.specs.declared.step.MasterError.TheVariants.{Refused};
ghost use Rattle.master_script.specs.declared.step.Refusal.TheVariants.{Lost};
ghost use Rattle.master_script.specs.declared.step.Stage.{Stage};
ghost use Rattle.master_script.specs.declared.step.Step.{Step as LostStep};
ghost use Rattle.segment_bench.specs.NewBench.{IsNew};
ghost use Rattle.segment_draw.specs.Generated.{generated};
ghost use Rattle.segment_file.specs.Legal.{IsLegal};
ghost use Rattle.dc_top.specs.Answers.{OfFile, RefusesDriven, RefusesRun};
ghost use Rattle.dc_top.specs.Runs.{HasMade, IsReport, text_of_report};
ghost use Rattle.dc_top.specs.declared.outcome.Outcome.TheVariants as outcome;
ghost use Rattle.dc_top.specs.declared.report.Report.TheVariants as report;

use crate::Outcome;
use crate::report::Report;
use bench_report::{delays_of_bench, drill_report, run_report};
use dc_base::NoMemory;
use dc_bench::Bench;
use dc_master::{MasterError, Refusal, Step};
use segment_bench::{commission, new_bench, run};
use segment_draw::generate;
use segment_file::{Segment, read_segment};
use std::alloc::Global;

/// Makes the run of the segment that the bytes of a file say: what is reported of it.
pub(crate) fn drive_file(
    alloc: Global,
    bytes: &[u8],
    report: Report,
    bench: &mut Option<Bench>,
) -> Result<Vec<u8>, Outcome>
    requires { bench.old ≡ None }
    ensures written { IfOk result (λ text. OfFile bytes.now (λ s. IsReport report s text.items bench.new)) }
    ensures refused { IfErr result (λ o. RefusesDriven report bytes.now o bench.new) }
{
    let segment = read_segment(alloc, bytes)?;
    drive(alloc, &segment, report, bench)
}

/// Makes the run of the segment that is drawn by a seed: what is reported of it.
pub(crate) fn drill(
    alloc: Global,
    slaves: u16,
    seed: u64,
    bench: &mut Option<Bench>,
) -> Result<Vec<u8>, Outcome>
    requires { (1 ≤ slaves) × (slaves ≤ 256) }
    ensures written { IfOk result (λ text. IsReport report.Drill (generated slaves seed) text.items bench.new) }
    ensures refused { IfErr result (λ o. o ≡ outcome.NoMemory) }
{
    let segment = generate(alloc, slaves, seed)?;
    drive(alloc, &segment, Report::Drill, bench)
}

// Makes the run of a segment over a new bench, which is left in `bench`: what is reported of it.
fn drive(
    alloc: Global,
    segment: &Segment,
    report: Report,
    bench: &mut Option<Bench>,
) -> Result<Vec<u8>, Outcome>
    ensures written { IfOk result (λ text. IsReport report segment.now text.items bench.new) }
    ensures refused { IfErr result (λ o. RefusesRun report segment.now o bench.new) }
{
    let mut made = new_bench(alloc, segment)?;
    let text = drive_bench(alloc, segment, report, &mut made);
    *bench = Some(made);
    text
}

// The same over a bench that is there.
fn drive_bench(
    alloc: Global,
    segment: &Segment,
    report: Report,
    bench: &mut Bench,
) -> Result<Vec<u8>, Outcome>
    requires stage { bench.old.master.stage ≡ Stage.Fresh }
    requires refusal { bench.old.master.refusal ≡ None }
    requires new { IsNew segment.now bench.old }
    ensures written { IfOk result (λ text. IsReport report segment.now text.items (Some bench.new)) }
    ensures refused { IfErr result (λ o. RefusesRun report segment.now o (Some bench.new)) }
{
    match make_run(segment, report, bench) {
        Ok(()) => Ok(report_text(alloc, segment, report, bench)?),
        Err(error) => Err(Outcome::Lost(step_of(error))),
    }
}

// Makes the run of a segment as far as a report wants it.
fn make_run(segment: &Segment, report: Report, bench: &mut Bench) -> Result<(), MasterError>
    requires stage { bench.old.master.stage ≡ Stage.Fresh }
    requires refusal { bench.old.master.refusal ≡ None }
    requires new { IsNew segment.now bench.old }
    ensures { HasMade report segment.now bench.new result }
{
    match report {
        Report::Delays => commission(bench),
        Report::Run { .. } | Report::Drill => run(bench, segment),
    }
}

// What is reported of a bench that has made its run.
fn report_text(
    alloc: Global,
    segment: &Segment,
    report: Report,
    bench: &Bench,
) -> Result<Vec<u8>, NoMemory>
    requires legal { IsLegal segment.now }
    requires made { HasMade report segment.now bench.now (Ok tt) }
    ensures { IfOk result (λ text. text.items ≡ text_of_report report segment.now bench.now) }
{
    match report {
        Report::Delays => delays_of_bench(alloc, segment, bench),
        Report::Run { edges } => run_report(alloc, segment, bench, edges),
        Report::Drill => drill_report(alloc, segment, bench),
    }
}

// The step that was lost: over the wire of a legal segment a run ends with no other error.
fn step_of(error: MasterError) -> Step
    requires { (step : LostStep) × (error ≡ Refused (Lost step)) }
    ensures { error ≡ Refused (Lost result) }
{
    match error {
        MasterError::Refused(Refusal::Lost(step)) => step,
        _ => unreachable!(),
    }
}
