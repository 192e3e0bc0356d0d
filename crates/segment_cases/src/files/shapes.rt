use crate::files::UNREAD;
use crate::files::refusals::shape_told;
use esc_regs::ClockKind;
use loss_list::{LossRow, Phase};
use osc_clock::RateRow;
use segment_shape::{Head, Parent, Shape, ShapeRow, read_shape};
use std::alloc::{AllocError, Global};

/// Writes whether the file has a shape.
pub(crate) fn read(alloc: Global, file: &str, told: &mut String) -> Result<(), AllocError> {
    match read_shape(alloc, file.as_bytes()) {
        Ok(_shape) => told.push_str("ok"),
        Err(error) => shape_told(&error, told),
    }
}

/// Writes what the file says.
pub(crate) fn tell(
    alloc: Global,
    file: &str,
    asked: (&str, &str),
    told: &mut String,
) -> Result<(), AllocError> {
    match read_shape(alloc, file.as_bytes()) {
        Ok(shape) => part_told(&shape, asked, told),
        Err(error) => shape_told(&error, told),
    }
}

fn part_told(shape: &Shape, asked: (&str, &str), told: &mut String) -> Result<(), AllocError> {
    match asked {
        ("head", "") => head_told(&shape.head, told),
        ("row", row) => match row.parse::<usize>() {
            Ok(row) => match shape.rows.get(row) {
                Some(row) => row_told(row, told),
                None => told.push_str("no row"),
            },
            Err(_) => told.push_str(UNREAD),
        },
        ("losses", "") => losses_told(shape.losses.rows(), told),
        _ => told.push_str(UNREAD),
    }
}

fn head_told(head: &Head, told: &mut String) -> Result<(), AllocError> {
    write!(
        told,
        "{} {} {} {}",
        head.version, head.ppm, head.frame_ns, head.speed
    )?;
    write!(
        told,
        " {} {} {} {}",
        head.loss_run, head.epoch_ns, head.cycle_ns, head.cycles
    )
}

fn row_told(row: &ShapeRow, told: &mut String) -> Result<(), AllocError> {
    write!(told, "{} {} {}", row.id, kind_name(row.kind), row.tp_ns)?;
    write!(told, " {} {} ", row.tf_ns, row.cable_ps)?;
    parent_told(row.parent, told)?;
    write!(told, " {} {} {} ", row.start, row.phase_fs, row.period_fs)?;
    rates_told(&row.rates, told)?;
    signals_told(row.shift_ns, row.sync1_ns, told)
}

pub(crate) fn kind_name(kind: ClockKind) -> &'static str {
    match kind {
        ClockKind::None => "none",
        ClockKind::R32 => "r32",
        ClockKind::C32 => "c32",
        ClockKind::C64 => "c64",
    }
}

fn parent_told(parent: Option<Parent>, told: &mut String) -> Result<(), AllocError> {
    match parent {
        Some(parent) => write!(told, "{}:{}", parent.id, parent.port),
        None => told.push_str("-"),
    }
}

pub(crate) fn rates_told(rates: &[RateRow], told: &mut String) -> Result<(), AllocError> {
    told.push_str("[")?;
    for rate in rates {
        write!(told, " {}:{}", rate.tick, rate.period_fs)?;
    }
    told.push_str(" ]")
}

pub(crate) fn signals_told(
    shift_ns: u32,
    sync1_ns: Option<u32>,
    told: &mut String,
) -> Result<(), AllocError> {
    match sync1_ns {
        Some(ns) => write!(told, " {shift_ns} {ns}"),
        None => write!(told, " {shift_ns} -"),
    }
}

pub(crate) fn losses_told(losses: &[LossRow], told: &mut String) -> Result<(), AllocError> {
    told.push_str("[")?;
    for loss in losses {
        let phase = phase_name(loss.phase);
        write!(told, " {phase}:{}:{}", loss.number, loss.after)?;
    }
    told.push_str(" ]")
}

fn phase_name(phase: Phase) -> &'static str {
    match phase {
        Phase::Commission => "commission",
        Phase::Drift => "drift",
    }
}
