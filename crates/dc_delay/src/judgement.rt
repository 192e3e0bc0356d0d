ghost use Rattle.std.specs.Prelude.{◌≡◌, ◌<◌, ◌&&◌, not, length, Err, IfErr, IfOk, IfSome, Some};
ghost use Rattle.dc_bounds.specs.Measurable.{is_measurable};
ghost use Rattle.dc_bounds.specs.Weight.{flag};
ghost use Rattle.dc_delay.specs.Refusals.{IsRefused, first_timed, first_unmeasurable};
ghost use Rattle.dc_delay.specs.ShapeRows.{hanging};
ghost use Rattle.dc_delay.specs.declared.error.DelayError.{DelayError as Error};

use crate::error::DelayError;
use crate::places::Places;
use dc_bounds::is_measurable;
use dc_topology::Shape;

/// Whether there are delays of the clocks of a shape, which can be told before a slave has latched.
/// `measuring` and `timed` say of each position whether the slave latches receive times, and whether it
/// is a clock.
pub fn judge(shape: &Shape, measuring: &[bool], timed: &[bool]) -> Result<(), DelayError>
    requires measuring { length measuring.now ≡ length shape.now }
    requires timed { length timed.now ≡ length shape.now }
    ensures refused { IfErr result (IsRefused shape.now (flag measuring.now) (flag timed.now)) }
    ensures exactly { (e : Error) → IsRefused shape.now (flag measuring.now) (flag timed.now) e → result ≡ Err e }
{
    reference(shape, measuring, timed)?;
    Ok(())
}

// The position of the reference, which is the first clock, where there are delays.
pub(crate) fn reference(
    shape: &Shape,
    measuring: &[bool],
    timed: &[bool],
) -> Result<u16, DelayError>
    requires measuring { length measuring.now ≡ length shape.now }
    requires timed { length timed.now ≡ length shape.now }
    ensures ok { IfOk result (λ r. first_timed shape.now (flag timed.now) ≡ Some r) }
    ensures within { IfOk result (λ r. r < length shape.now) }
    ensures refused { IfErr result (IsRefused shape.now (flag measuring.now) (flag timed.now)) }
    ensures exactly { (e : Error) → IsRefused shape.now (flag measuring.now) (flag timed.now) e → result ≡ Err e }
{
    let Some(reference) = first_timed(shape, timed) else {
        return Err(DelayError::NoReference);
    };
    match first_unmeasurable(shape, measuring) {
        Some(position) => Err(DelayError::Unmeasurable(position)),
        None => Ok(reference),
    }
}

// The position of the first clock.
fn first_timed(shape: &Shape, timed: &[bool]) -> Option<u16>
    requires { length timed.now ≡ length shape.now }
    ensures is { result ≡ first_timed shape.now (flag timed.now) }
    ensures within { IfSome result (λ r. r < length shape.now) }
{
    for position in 0..shape.len() {
        if timed[position] {
            return Some(position as u16);
        }
    }
    None
}

// The first measuring slave but the very first that cannot be measured from one above it.
fn first_unmeasurable(shape: &Shape, measuring: &[bool]) -> Option<u16>
    requires { length measuring.now ≡ length shape.now }
    ensures { result ≡ first_unmeasurable shape.now (flag measuring.now) }
{
    let mut is_first = true;
    for position in 0..shape.len() {
        if is_first {
            is_first = !measuring[position];
        } else if is_unmeasurable(shape, measuring, position as u16) {
            return Some(position as u16);
        }
    }
    None
}

// Whether a slave measures and cannot be measured.
fn is_unmeasurable(shape: &Shape, measuring: &[bool], position: u16) -> bool
    requires measuring { length measuring.now ≡ length shape.now }
    requires within { position < length shape.now }
    ensures { result ≡ (flag measuring.now position && not (is_measurable (hanging shape.now) (flag measuring.now) position)) }
{
    measuring[usize::from(position)] && !is_measurable(&Places { shape }, measuring, position)
}
