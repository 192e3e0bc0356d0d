use local_clock::LocalClock;
use osc_clock::{Osc, RateRow};
use std::alloc::Global;
use sync_units::{EdgeList, SyncUnit};
use wrap_time::{ClockWord, T64};

// An oscillator whose period changes twice within the first microsecond.
fn oscillator() -> Option<Osc> {
    let rates = [
        RateRow {
            tick: 10,
            period_fs: 10_001_000,
        },
        RateRow {
            tick: 50,
            period_fs: 9_999_000,
        },
    ];
    Osc::with_rates(3_000_000, 10_000_000, &rates)
}

/// The sum of the readings of so many clocks.
pub(crate) fn advanced(time_fs: u64, times: u64) -> Option<u64> {
    let osc = oscillator()?;
    let mut sum: u64 = 0;
    for start in 0..times {
        let mut clock = LocalClock::new(osc, T64::cut(start), 64);
        clock.receive(1_000_000);
        clock.advance(time_fs);
        sum = sum.wrapping_add(clock.reading().value());
    }
    Some(sum)
}

/// The edges of a unit with a cycle of 1 ms, from 1 ms on.
pub(crate) fn raise(time_fs: u64, list: &mut EdgeList) -> Option<()> {
    let mut clock = LocalClock::new(oscillator()?, T64::cut(0), 64);
    clock.receive(1_000_000);
    let mut unit = SyncUnit::new();
    unit.arm(T64::cut(1_000_000), 1_000_000, Some(250_000));
    unit.edges_until(&clock, T64::cut(0), time_fs, list);
    Some(())
}

/// What a clock of a wire has: its SYNC unit, and the edges that are raised.
#[derive(Drop)]
struct Station {
    clock: LocalClock<T64>,
    unit: SyncUnit<T64>,
    edges: EdgeList,
}

/// A frame each ms over 256 clocks with a cycle of so many ns, each of which is visited once by each
/// frame: raised edges, and then the clock, up to the frame. The first edges are due after 1 ms.
pub(crate) fn visited(alloc: Global, frames: u16, cycle: u32) -> Option<u64> {
    let mut stations = stations(alloc, cycle)?;
    for frame in 0..u64::from(frames) {
        for station in &mut stations {
            visit(station, (frame + 1) * FRAME_FS);
        }
    }
    let mut sum: u64 = 0;
    for station in &stations {
        sum = sum
            .wrapping_add(station.clock.reading().value())
            .wrapping_add(station.edges.edges().len() as u64);
    }
    Some(sum)
}

const FRAME_FS: u64 = 1_000_000_000_000;

fn stations(alloc: Global, cycle: u32) -> Option<Vec<Station>> {
    let osc = oscillator()?;
    let mut stations = Vec::new(alloc);
    for row in 0..256 {
        let mut clock = LocalClock::new(osc, T64::cut(row), 64);
        clock.receive(1_000);
        let mut unit = SyncUnit::new();
        if cycle >= 1_000 {
            unit.arm(T64::cut(1_000_000), cycle, None);
        }
        let edges = EdgeList::new(alloc, 1_000).ok()?;
        stations.push(Station { clock, unit, edges }).ok()?;
    }
    Some(stations)
}

fn visit(station: &mut Station, t: u64) {
    if t < station.clock.now() {
        return;
    }
    station
        .unit
        .edges_until(&station.clock, T64::cut(0), t, &mut station.edges);
    station.clock.advance(t);
}
