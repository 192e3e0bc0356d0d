ghost use Rattle.std.specs.Prelude.{◌≡◌};
ghost use Rattle.segment_shape.specs.KeyNames.{name_of};

/// A key of the objects of a segment file.
#[derive(Clone, Copy)]
pub(crate) enum Key {
    // Of the head.
    Version,
    Ppm,
    FrameNs,
    Speed,
    LossRun,
    EpochNs,
    CycleNs,
    Cycles,
    Slaves,
    Losses,
    // Of a slave row.
    Id,
    Clock,
    TpNs,
    TfNs,
    CablePs,
    Parent,
    Port,
    Start,
    PhaseFs,
    PeriodFs,
    ShiftNs,
    Sync1Ns,
    Rates,
    // Of a rate row, which has a period as well.
    Tick,
    // Of a loss row.
    Phase,
    Number,
    After,
}

impl Key {
    /// As it stands in a file.
    pub(crate) fn name(self) -> &'static str
        ensures { result.now ≡ name_of self }
    {
        match self {
            Key::Version => "version",
            Key::Ppm => "ppm",
            Key::FrameNs => "frame_ns",
            Key::Speed => "speed",
            Key::LossRun => "loss_run",
            Key::EpochNs => "epoch_ns",
            Key::CycleNs => "cycle_ns",
            Key::Cycles => "cycles",
            Key::Slaves => "slaves",
            Key::Losses => "losses",
            Key::Id => "id",
            Key::Clock => "clock",
            Key::TpNs => "tp_ns",
            Key::TfNs => "tf_ns",
            Key::CablePs => "cable_ps",
            Key::Parent => "parent",
            Key::Port => "port",
            Key::Start => "start",
            Key::PhaseFs => "phase_fs",
            Key::PeriodFs => "period_fs",
            Key::ShiftNs => "shift_ns",
            Key::Sync1Ns => "sync1_ns",
            Key::Rates => "rates",
            Key::Tick => "tick",
            Key::Phase => "phase",
            Key::Number => "number",
            Key::After => "after",
        }
    }
}
