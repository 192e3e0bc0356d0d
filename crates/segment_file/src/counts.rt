ghost use Rattle.std.specs.Prelude.{◌≡◌, ◌≤◌, count_by, is_some, length, map};
ghost use Rattle.segment_file.specs.Counted.{IsCounted};
ghost use Rattle.segment_file.specs.Segment.{clocks, counts_of, measuring};
ghost use Rattle.segment_file.specs.Seen.{counts_seen, row_seen};

use crate::slave_row::SlaveRow;
use esc_regs::{has_clock, measures};

/// How many slaves and signals a segment has.
#[derive(Clone, Copy, Debug, PartialEq, Eq)]
pub struct Counts {
    /// Slaves of any kind.
    pub slaves: u16,
    /// Slaves that take receive times.
    pub measuring: u16,
    /// Slaves whose clocks are kept together.
    pub clocks: u16,
    /// SYNC0 of each clock, and SYNC1 where it is asked for.
    pub signals: u16,
}

fn measuring(rows: &[SlaveRow]) -> usize
    ensures { result ≡ measuring (map row_seen rows.now) }
{
    rows.iter().filter(|row| measures(row.kind)).count()
}

fn clocks(rows: &[SlaveRow]) -> usize
    ensures { result ≡ clocks (map row_seen rows.now) }
{
    rows.iter().filter(|row| has_clock(row.kind)).count()
}

fn sync1_signals(rows: &[SlaveRow]) -> usize
    ensures { result ≡ count_by (λ r. is_some r.sync1_ns) (map row_seen rows.now) }
{
    rows.iter().filter(|row| row.sync1_ns.is_some()).count()
}

/// The counts of these rows.
pub(crate) fn counts_of(rows: &[SlaveRow]) -> Counts
    requires { length rows.now ≤ 256 }
    ensures is { counts_seen result ≡ counts_of (map row_seen rows.now) }
    ensures counted { IsCounted (counts_seen result) }
{
    let clocks = clocks(rows);
    Counts {
        slaves: rows.len() as u16,
        measuring: measuring(rows) as u16,
        clocks: clocks as u16,
        signals: (clocks + sync1_signals(rows)) as u16,
    }
}
