use crate::files::UNREAD;
use crate::files::refusals::segment_told;
use crate::files::shapes::{kind_name, losses_told, rates_told, signals_told};
use crate::words::port_number;
use cable_tree::Above;
use segment_file::{Phase, Segment, SlaveRow, clock_flags, measuring_flags, read_segment};
use std::alloc::{AllocError, Global};

/// Writes whether the file is legal.
pub(crate) fn read(alloc: Global, file: &str, told: &mut String) -> Result<(), AllocError> {
    match read_segment(alloc, file.as_bytes()) {
        Ok(_segment) => told.push_str("ok"),
        Err(error) => segment_told(&error, told),
    }
}

/// Writes what the segment of the file has.
pub(crate) fn tell(
    alloc: Global,
    file: &str,
    asked: (&str, &str),
    told: &mut String,
) -> Result<(), AllocError> {
    match read_segment(alloc, file.as_bytes()) {
        Ok(segment) => part_told(&segment, asked, told),
        Err(error) => segment_told(&error, told),
    }
}

fn part_told(segment: &Segment, asked: (&str, &str), told: &mut String) -> Result<(), AllocError> {
    match asked {
        ("head", "") => head_told(segment, told),
        ("row", row) => match row.parse::<usize>() {
            Ok(row) => match segment.rows().get(row) {
                Some(row) => row_told(row, told),
                None => told.push_str("no row"),
            },
            Err(_) => told.push_str(UNREAD),
        },
        ("losses", "") => losses_told(segment.losses(), told),
        ("numbers", "") => numbers_told(segment, told),
        ("order", "") => order_told(segment, told),
        ("flags", "") => flags_told(segment.rows(), told),
        ("drift", number) => loss_told(segment, Phase::Drift, number, told),
        ("commission", number) => loss_told(segment, Phase::Commission, number, told),
        _ => told.push_str(UNREAD),
    }
}

fn head_told(segment: &Segment, told: &mut String) -> Result<(), AllocError> {
    let (version, ppm, frame_ns) = (segment.version(), segment.ppm(), segment.frame_ns());
    write!(told, "{version} {ppm} {frame_ns} {}", segment.speed())?;
    let (loss_run, epoch_ns, cycle_ns) = (
        segment.loss_run(),
        segment.epoch_ns(),
        segment.cycle_ns(),
    );
    write!(
        told,
        " {loss_run} {epoch_ns} {cycle_ns} {}",
        segment.cycles()
    )
}

fn row_told(row: &SlaveRow, told: &mut String) -> Result<(), AllocError> {
    write!(told, "{} {} {}", row.id, kind_name(row.kind), row.tp_ns)?;
    write!(told, " {} {} ", row.tf_ns, row.cable_ps)?;
    above_told(row.above, told)?;
    write!(told, " {} {} {} ", row.start, row.phase_fs, row.period_fs)?;
    rates_told(&row.rates, told)?;
    signals_told(row.shift_ns, row.sync1_ns, told)
}

fn above_told(above: Option<Above>, told: &mut String) -> Result<(), AllocError> {
    match above {
        Some(above) => write!(told, "{}:{}", above.row, port_number(above.port)),
        None => told.push_str("-"),
    }
}

fn numbers_told(segment: &Segment, told: &mut String) -> Result<(), AllocError> {
    let (clocks, measuring, signals) = (segment.clocks(), segment.measuring(), segment.signals());
    write!(
        told,
        "{clocks} {measuring} {signals} {}",
        segment.lock_step()
    )?;
    write!(told, " {} {}", segment.lock_in(), segment.run_frames())
}

fn order_told(segment: &Segment, told: &mut String) -> Result<(), AllocError> {
    write!(
        told,
        "{} at {}:",
        segment.reference(),
        segment.reference_position()
    )?;
    for position in 0..segment.slaves() {
        write!(told, " {}", segment.row_at(position))?;
    }
    Ok(())
}

fn flags_told(rows: &[SlaveRow], told: &mut String) -> Result<(), AllocError> {
    if rows.len() > 256 {
        return told.push_str("too many rows");
    }
    let measuring = measuring_flags(rows);
    let clocks = clock_flags(rows);
    for (measures, is_clock) in measuring.iter().zip(clocks.iter()) {
        write!(told, "{}{} ", u8::from(*measures), u8::from(*is_clock))?;
    }
    Ok(())
}

fn loss_told(
    segment: &Segment,
    phase: Phase,
    number: &str,
    told: &mut String,
) -> Result<(), AllocError> {
    let Ok(number) = number.parse::<u32>() else {
        return told.push_str(UNREAD);
    };
    match segment.loss(phase, number) {
        Some(after) => write!(told, "lost after {after}"),
        None => told.push_str("comes"),
    }
}
