ghost use Rattle.std.specs.Prelude.{◌≡◌};
ghost use Rattle.master_script.specs.Slaves.{is_clock, is_measuring, is_wide};
ghost use Rattle.master_script.specs.Steps.{expected_fourth};

use std::marker::Model;

/// What a slave told at Identify.
#[derive(Clone, Copy, Debug)]
pub struct SlaveWords {
    pub features: u16,
    pub status: u16,
    /// The working counter of the read of its system time.
    pub fourth: u16,
}

impl Model for SlaveWords {
    ghost use Rattle.master_script.specs.Slaves.{SlaveWords as Told};

    ghost Value = { Told };

    ghost view = { λ a. record { features = a.features; status = a.status; fourth = a.fourth } };

    ghost inverse = { λ s. record { features = s.features; status = s.status; fourth = s.fourth } };
}

impl Default for SlaveWords {
    ghost use Rattle.std.specs.Prelude.{◌≡◌};

    ghost is_default = { λ x. x ≡ record { features = 0; status = 0; fourth = 0 } };

    // Those of no slave.
    fn default() -> SlaveWords {
        SlaveWords {
            features: 0,
            status: 0,
            fourth: 0,
        }
    }
}

impl SlaveWords {
    /// Whether it has distributed clocks, and latches receive times.
    pub fn is_measuring(&self) -> bool
        ensures { result ≡ is_measuring self.now }
    {
        self.features >> 2 & 1 == 1
    }

    /// Whether it measures and has a system time.
    pub fn is_clock(&self) -> bool
        ensures { result ≡ is_clock self.now }
    {
        self.is_measuring() && self.fourth == 1
    }

    /// Whether its times have 64 bits. It says so of a slave without clocks too.
    pub fn is_wide(&self) -> bool
        ensures { result ≡ is_wide self.now }
    {
        self.features >> 3 & 1 == 1
    }

    /// The counter that the read of its system time is expected to have: a measuring slave without a
    /// system time refuses it. The counter that came is not compared.
    pub fn expected_fourth(&self) -> u16
        ensures { result ≡ expected_fourth self.now }
    {
        if self.is_measuring() && self.fourth != 0 {
            1
        } else {
            0
        }
    }
}
