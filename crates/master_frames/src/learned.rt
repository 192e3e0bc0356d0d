ghost use Rattle.std.specs.Prelude.{◌≡◌, ◌≤◌, length, map, None, replicate, slice_index_or};
ghost use Rattle.dc_bounds.specs.Weight.{flag};
ghost use Rattle.master_script.specs.Slaves.{is_clock, is_measuring, clocks, measuring};
ghost use Rattle.master_script.specs.Words.{reference_of, unit_of, wide_at};
ghost use Rattle.master_frames.specs.Known.{nothing, words_of};

use crate::slave_words::SlaveWords;
use arrayvec::ArrayVec;
use dc_delay::Latch;
use wrap_time::{ClockWord, T32};

/// What a master has learned from replies.
#[derive(Debug, Drop)]
pub struct Learned {
    /// What each slave told, in frame order.
    pub slaves: ArrayVec<SlaveWords, 256>,
    /// The position of the reference, once the slaves are judged.
    pub reference: Option<u16>,
    /// By position, the receive times that were read.
    pub latches: ArrayVec<Option<Latch>, 256>,
    /// The number of the sending of the latch frame that came back; 0 before.
    pub latched: u32,
    /// The time of the reference in the last settle frame that came back, in ns.
    pub time: Option<u64>,
}

impl Learned {
    /// Nothing is learned yet of so many slaves. It takes no memory.
    pub fn new(slaves: usize) -> Learned
        requires { slaves ≤ 256 }
        ensures { words_of result ≡ nothing slaves }
    {
        Learned {
            slaves: ArrayVec::new(),
            reference: None,
            latches: unread(slaves),
            latched: 0,
            time: None,
        }
    }

    /// The position of the reference, 0 where it is not known.
    pub fn reference_or_0(&self) -> u16
        ensures { result ≡ reference_of (words_of self.now) }
    {
        self.reference.unwrap_or(0)
    }

    /// Whether the times of the slave at a position have 64 bits; not where there is none.
    pub fn is_wide(&self, position: u16) -> bool
        ensures { result ≡ wide_at (words_of self.now) position }
    {
        match self.slaves.get(usize::from(position)) {
            Some(slave) => slave.is_wide(),
            None => false,
        }
    }

    /// The receive time at the processing unit of the slave at a position, 0 where it was not read. It says nothing of its width.
    pub fn unit(&self, position: u16) -> u64
        ensures { result ≡ unit_of (slice_index_or (words_of self.now).latches position None) }
    {
        match self.latches.get(usize::from(position)) {
            Some(Some(latch)) => latch.unit,
            _ => 0,
        }
    }

    /// Whether the slave at a position measures.
    pub fn is_measuring(&self, position: u16) -> bool
        ensures { result ≡ flag (map is_measuring (words_of self.now).slaves) position }
    {
        match self.slaves.get(usize::from(position)) {
            Some(slave) => slave.is_measuring(),
            None => false,
        }
    }

    /// Whether the slave at a position is a clock.
    pub fn is_clock(&self, position: u16) -> bool
        ensures { result ≡ flag (map is_clock (words_of self.now).slaves) position }
    {
        match self.slaves.get(usize::from(position)) {
            Some(slave) => slave.is_clock(),
            None => false,
        }
    }

    /// N_m, the number of slaves that measure, of those that told what they are so far.
    pub fn measuring(&self) -> u16
        ensures is { result ≡ length (measuring (words_of self.now).slaves) }
        ensures few { result ≤ 256 }
    {
        let mut count = 0;
        for position in 0..self.slaves.len() as u16 {
            if self.is_measuring(position) {
                count += 1;
            }
        }
        count
    }

    /// N_c, the number of clocks, of those that told what they are so far.
    pub fn clocks(&self) -> u16
        ensures is { result ≡ length (clocks (words_of self.now).slaves) }
        ensures few { result ≤ 256 }
    {
        let mut count = 0;
        for position in 0..self.slaves.len() as u16 {
            if self.is_clock(position) {
                count += 1;
            }
        }
        count
    }
}

// So many slaves whose receive times were not read. The proof of a list of latches needs a value of the type of their times in
// sight, though no time is there yet.
fn unread(slaves: usize) -> ArrayVec<Option<Latch>, 256>
    requires { slaves ≤ 256 }
    ensures { result.items ≡ replicate slaves None }
{
    let _time = T32::cut(0);
    let mut latches = ArrayVec::from([None; 256]);
    latches.truncate(slaves);
    latches
}
