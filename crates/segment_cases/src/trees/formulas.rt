use crate::words::Words;
use dc_bounds::{
    copy_bound, delay_bound, jump, lead_ns, least_ticks, lock_count, lock_step, reach_fs,
    run_frames, tick_gap, window,
};
use std::alloc::AllocError;

const LONGEST_FS: u128 = 100_000_000_000_000_000_000;

const ANY_32: u128 = 4_294_967_295;

const ANY_64: u128 = 18_446_744_073_709_551_615;

/// G, Q and nmin.
pub(crate) fn ticks(words: &mut Words<'_>, told: &mut String) -> Result<(), AllocError> {
    let ppm = words.number(0, 100) as u32;
    let length_fs = words.number(0, LONGEST_FS);
    let (gap, jump) = (tick_gap(ppm, length_fs), jump(ppm, length_fs));
    write!(told, "{gap} {jump} {}", least_ticks(ppm, length_fs))
}

/// μ, and K.
pub(crate) fn locks(words: &mut Words<'_>, told: &mut String) -> Result<(), AllocError> {
    let ppm = words.number(0, 100) as u32;
    let frame_ns = words.number(50_000, 10_000_000) as u32;
    let speed = words.number(128, 16_383) as u16;
    let loss_run = words.number(0, 15) as u8;
    let reach = words.number(0, LONGEST_FS);
    let step = lock_step(ppm, frame_ns, speed, loss_run);
    if step < 1 {
        return write!(told, "{step} -");
    }
    let count = lock_count(ppm, frame_ns, speed, loss_run, reach);
    write!(told, "{step} {count}")
}

/// Z.
pub(crate) fn reaches(words: &mut Words<'_>, told: &mut String) -> Result<(), AllocError> {
    let measuring = words.number(1, 256);
    let clocks = words.number(1, measuring) as u16;
    let loss_run = words.number(0, 15) as u8;
    let frame_ns = words.number(50_000, 10_000_000) as u32;
    write!(
        told,
        "{}",
        reach_fs(measuring as u16, clocks, loss_run, frame_ns)
    )
}

/// B.
pub(crate) fn delays(words: &mut Words<'_>, told: &mut String) -> Result<(), AllocError> {
    let ppm = words.number(0, 100) as u32;
    let weight = words.number(0, ANY_32) as u32;
    let round_trip_fs = words.number(0, ANY_64) as u64;
    write!(told, "{}", delay_bound(ppm, weight, round_trip_fs))
}

/// X.
pub(crate) fn copies(words: &mut Words<'_>, told: &mut String) -> Result<(), AllocError> {
    let ppm = words.number(0, 100) as u32;
    let frame_ns = words.number(50_000, 10_000_000) as u32;
    let loss_run = words.number(0, 15) as u8;
    let bound_fs = words.number(0, LONGEST_FS);
    let delay_fs = words.number(0, ANY_64) as u64;
    write!(
        told,
        "{}",
        copy_bound(ppm, frame_ns, loss_run, bound_fs, delay_fs)
    )
}

/// W.
pub(crate) fn windows(words: &mut Words<'_>, told: &mut String) -> Result<(), AllocError> {
    let ppm = words.number(0, 100) as u32;
    let shift_ns = words.number(0, 1_000_000_000_000) as u64;
    let x = words.number(0, 10 * LONGEST_FS);
    let y = words.number(0, 10 * LONGEST_FS);
    write!(told, "{}", window(ppm, shift_ns, x, y))
}

/// The lead, and the frames of a run.
pub(crate) fn runs(words: &mut Words<'_>, told: &mut String) -> Result<(), AllocError> {
    let clocks = words.number(1, 256) as u16;
    let loss_run = words.number(0, 15) as u8;
    let frame_ns = words.number(50_000, 10_000_000) as u32;
    let cycle_ns = words.number(0, ANY_32) as u32;
    let cycles = words.number(0, 100_000) as u32;
    let lead = lead_ns(clocks, loss_run, frame_ns);
    let frames = run_frames(clocks, loss_run, frame_ns, cycle_ns, cycles);
    write!(told, "{lead} {frames}")
}
