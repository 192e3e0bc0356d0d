//! The tries of an exchange, and rounds of exchanges.

ghost use Rattle.std.specs.Prelude.{◌≡◌, ◌+◌, ◌*◌, ◌<◌, ◌≤◌, [], ◌∷◌, IfOk, length};
ghost use Rattle.lost_step.specs.LostStep.{asked, behind_tries, loses};
ghost use Rattle.lost_step.specs.Rounds.{phase_of, step_of, steps_of, takes_part};

use master_script::Step;
use segment_file::{Phase, Segment, has_clock, measures};

/// How often a frame is sent at most.
const TRIES: u32 = 3;

/// The steps that are asked of one slave after another.
#[derive(Clone, Copy)]
pub(crate) enum Round {
    /// Of every slave.
    Identify,
    /// Of every slave that measures.
    Times,
    /// Of every clock.
    Set,
    /// Of every clock, in arming.
    Arm,
}

// The phase whose frames carry a round.
fn phase_of(round: Round) -> Phase
    ensures { result ≡ phase_of round }
{
    match round {
        Round::Identify | Round::Times | Round::Set => Phase::Commission,
        Round::Arm => Phase::Drift,
    }
}

// The step of a round for the slave at a position.
fn step_of(round: Round, position: u16) -> Step
    ensures { result ≡ step_of round position }
{
    match round {
        Round::Identify => Step::Identify(position),
        Round::Times => Step::Times(position),
        Round::Set => Step::Set(position),
        Round::Arm => Step::Arm(position),
    }
}

// Whether the slave at a position takes part in a round.
fn takes_part(segment: &Segment, round: Round, position: u16) -> bool
    requires { position < length segment.now.rows }
    ensures { result ≡ takes_part segment.now round position }
{
    let row = segment.row_at(position);
    let kind = segment.rows()[usize::from(row)].kind;
    match round {
        Round::Identify => true,
        Round::Times => measures(kind),
        Round::Set | Round::Arm => has_clock(kind),
    }
}

// The number behind the tries of an exchange whose first try has this number; None where all of them are lost.
fn behind_tries(segment: &Segment, phase: Phase, first: u32) -> Option<u32>
    requires { first ≤ 1000000 }
    ensures { result ≡ behind_tries (loses segment.now phase) first }
{
    for number in first..first + TRIES {
        if segment.loss(phase, number).is_none() {
            return Some(number + 1);
        }
    }
    None
}

/// The number behind an exchange of this step whose first try has this number, or the step where it is lost.
pub(crate) fn ask(segment: &Segment, phase: Phase, first: u32, step: Step) -> Result<u32, Step>
    requires { first ≤ 1000000 }
    ensures is { result ≡ asked (loses segment.now phase) first (step ∷ []) }
    ensures few { IfOk result (λ behind. behind ≤ first + 3) }
{
    behind_tries(segment, phase, first).ok_or(step)
}

/// The number behind the exchanges of a round of which the first has its first try at this number, or the step that is lost.
pub(crate) fn ask_each(segment: &Segment, round: Round, first: u32) -> Result<u32, Step>
    requires { first ≤ 800000 }
    ensures is { result ≡ asked (loses segment.now (phase_of round)) first (steps_of segment.now round) }
    ensures few { IfOk result (λ behind. behind ≤ first + 3 * u16.MAX) }
{
    let mut number = first;
    for position in 0..segment.slaves() {
        if takes_part(segment, round, position) {
            number = ask(segment, phase_of(round), number, step_of(round, position))?;
        }
    }
    Ok(number)
}
