use crate::words::{Words, number_told};
use dc_delay::{DelayError, DelayList, Kind, Latch, delays, judge};
use dc_topology::{Shape, topology};
use std::alloc::{AllocError, Global};
use wrap_time::{ClockWord, T32};

/// Slaves in frame order, a list of each of their numbers.
#[derive(Drop)]
struct Slaves {
    /// What they show.
    statuses: Vec<u16>,
    /// How long they keep a frame.
    kinds: Vec<Kind>,
    /// Which of them measure.
    measuring: Vec<bool>,
    /// Which of them are clocks.
    timed: Vec<bool>,
    /// What they latched.
    latches: Vec<Option<Latch>>,
}

impl Slaves {
    fn new(alloc: Global) -> Slaves {
        Slaves {
            statuses: Vec::new(alloc),
            kinds: Vec::new(alloc),
            measuring: Vec::new(alloc),
            timed: Vec::new(alloc),
            latches: Vec::new(alloc),
        }
    }

    // Adds the slave that comes next in a case.
    fn push(&mut self, words: &mut Words<'_>) -> Result<(), AllocError> {
        self.statuses.push(words.status())?;
        self.kinds.push(Kind {
            tp_ns: words.number(0, 65_535) as u16,
            tf_ns: words.number(0, 65_535) as u16,
        })?;
        let (measures, is_clock) = words.flags();
        self.measuring.push(measures)?;
        self.timed.push(is_clock)?;
        let latch = if measures { Some(latch(words)) } else { None };
        self.latches.push(latch)?;
        Ok(())
    }
}

fn latch(words: &mut Words<'_>) -> Latch {
    let arrival = words.time();
    let ports = [arrival, words.time(), words.time(), words.time()];
    Latch {
        ports: ports.map(|time| T32::cut(time)),
        unit: arrival,
    }
}

/// What `judge` and `delays` answer.
pub(crate) fn delays_told(
    alloc: Global,
    words: &mut Words<'_>,
    told: &mut String,
) -> Result<(), AllocError> {
    let mut slaves = Slaves::new(alloc);
    for _slave in 0..words.most() {
        if words.is_empty() {
            break;
        }
        slaves.push(words)?;
    }
    let mut shape = Shape::new();
    if slaves.statuses.len() > 256 || topology(&slaves.statuses, &mut shape).is_err() {
        words.refuse();
        return Ok(());
    }
    judgement_told(&shape, &slaves, told)?;
    told.push_str(" ")?;
    measured_told(&shape, &slaves, told)
}

fn judgement_told(shape: &Shape, slaves: &Slaves, told: &mut String) -> Result<(), AllocError> {
    if slaves.measuring.len() != shape.len() || slaves.timed.len() != shape.len() {
        return told.push_str("another number of slaves");
    }
    answer_told(judge(shape, &slaves.measuring, &slaves.timed), told)
}

fn measured_told(shape: &Shape, slaves: &Slaves, told: &mut String) -> Result<(), AllocError> {
    let Slaves {
        kinds,
        latches,
        timed,
        ..
    } = slaves;
    let len = shape.len();
    if kinds.len() != len || latches.len() != len || timed.len() != len {
        return told.push_str("another number of slaves");
    }
    // What stood there before is gone.
    let mut list = DelayList::new();
    list.push(Some(1));
    answer_told(delays(shape, kinds, latches, timed, &mut list), told)?;
    for delay in list.as_slice() {
        number_told(*delay, told)?;
    }
    Ok(())
}

fn answer_told(answer: Result<(), DelayError>, told: &mut String) -> Result<(), AllocError> {
    match answer {
        Ok(()) => told.push_str("ok"),
        Err(DelayError::NoReference) => told.push_str("no-reference"),
        Err(DelayError::Unmeasurable(position)) => write!(told, "unmeasurable-{position}"),
    }
}
