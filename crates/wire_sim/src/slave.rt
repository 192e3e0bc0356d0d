ghost use Rattle.std.specs.Prelude.{◌≡◌, ◌+◌, ◌≤◌, ◌↔◌, true, None, Some, length, slice_range};
ghost use Rattle.esc_regs.specs.RegisterAccess.{is_refused};
ghost use Rattle.esc_regs.specs.RegisterWrite.{told};
ghost use Rattle.frame_pass.specs.SlaveState.{station, on_measuring};
ghost use Rattle.frame_pass.specs.Advancing.{advanced_to};
ghost use Rattle.frame_pass.specs.LiveRegisters.{live, read_of};
ghost use Rattle.frame_pass.specs.WriteEffects.{wrote};
ghost use Rattle.frame_pass.specs.FramePass.{port_latched};
ghost use Rattle.frame_pass.specs.SegmentState.{expecting};
ghost use Rattle.wire_sim.specs.Seen.{address_of, edges_kept, unit_told, HasWidth};

use crate::dc_unit::AnyUnit;
use crate::effects::affect;
use crate::visits::Visits;
use cable_tree::Port;
use esc_regs::{Access, Live, ReceivePort1, ReceivePort2, ReceivePort3, RegFile, Station, Written};
use std::marker::Model;
use sync_units::Edge;
use wrap_time::ClockWord;

/// The address of the system time, which each drift frame writes at each slave.
const SYSTEM_TIME: u16 = 0x0910;

/// A slave on the wire, at its present time.
#[derive(Drop)]
pub(crate) struct Slave {
    visits: Visits,
    registers: RegFile,
    unit: AnyUnit,
}

impl Model for Slave {
    ghost use Rattle.frame_pass.specs.SlaveState as told;
    ghost use Rattle.wire_sim.specs.Seen.{unit_told, HasWidth};

    ghost Value = { told.Slave };

    ghost view = { λ a. record { visits = a.visits; registers = a.registers; timing = unit_told a.unit } };

    ghost invariant = { λ a. HasWidth a.unit a.registers.kind };
}

impl Slave {
    /// A slave with these registers and this unit, which has the width of their kind.
    pub(crate) fn new(visits: Visits, registers: RegFile, unit: AnyUnit) -> Slave
        requires { HasWidth unit registers.kind }
        ensures { result ≡ record { visits = visits; registers = registers; timing = unit_told unit } }
    {
        Slave {
            visits,
            registers,
            unit,
        }
    }

    /// When a frame visits it.
    pub(crate) fn visits(&self) -> Visits
        ensures { result ≡ self.now.visits }
    {
        self.visits
    }

    /// The station address.
    pub(crate) fn station(&self) -> u16
        ensures { result ≡ station self.now.registers }
    {
        self.registers.get(Station::new())
    }

    /// Lets time go on to `t`, in fs; a slave that stands later stays.
    #[tactic(auto, unfolding(frame_pass::specs::Advancing::advanced_to))]
    pub(crate) fn advance(&mut self, t: u64)
        ensures { self.new ≡ advanced_to t self.old }
    {
        match &mut self.unit {
            AnyUnit::Clockless => {}
            AnyUnit::Narrow(unit) => unit.advance(&mut self.registers, t),
            AnyUnit::Wide(unit) => unit.advance(&mut self.registers, t),
        }
    }

    /// Stores what a frame writes, and carries out what that tells.
    #[inline(always)]
    pub(crate) fn write(&mut self, addr: u16, bytes: &[u8]) -> Written
        ensures is { self.new ≡ wrote addr bytes.now self.old }
        ensures tells { result ≡ told self.old.registers.kind addr bytes.now }
    {
        // Both are `store`. Compiled for the system time alone, nothing but the comparison is left of it.
        if addr == SYSTEM_TIME && bytes.len() <= 8 {
            self.store(addr, bytes)
        } else {
            self.store_elsewhere(addr, bytes)
        }
    }

    #[cold]
    #[inline(never)]
    fn store_elsewhere(&mut self, addr: u16, bytes: &[u8]) -> Written
        ensures is { self.new ≡ wrote addr bytes.now self.old }
        ensures tells { result ≡ told self.old.registers.kind addr bytes.now }
    {
        self.store(addr, bytes)
    }

    #[tactic(auto, unfolding(frame_pass::specs::WriteEffects::wrote))]
    #[inline(always)]
    fn store(&mut self, addr: u16, bytes: &[u8]) -> Written
        ensures is { self.new ≡ wrote addr bytes.now self.old }
        ensures tells { result ≡ told self.old.registers.kind addr bytes.now }
    {
        let told = self.registers.write(addr, bytes);
        match &mut self.unit {
            AnyUnit::Clockless => {}
            AnyUnit::Narrow(unit) => affect(&mut self.registers, unit, &told),
            AnyUnit::Wide(unit) => affect(&mut self.registers, unit, &told),
        }
        told
    }

    /// Fills `out` with what a frame reads from `addr` on; a refused read leaves it.
    #[tactic(auto, unfolding(frame_pass::specs::LiveRegisters::read_of))]
    pub(crate) fn read(&self, addr: u16, out: &mut [u8]) -> Access
        ensures refused { result ≡ Access.Refused ↔ (is_refused self.now.registers.kind addr (length out.old) ≡ true) }
        ensures none { result ≡ Access.Refused → read_of self.now addr (length out.old) ≡ None }
        ensures some { result ≡ Access.Done → read_of self.now addr (length out.old) ≡ Some out.new }
        ensures stays { result ≡ Access.Refused → out.new ≡ out.old }
    {
        self.registers.read_showing(addr, self.live(), out)
    }

    /// Expects an event of latch input 0 at the true time `t`, in fs, where it is not clockless.
    pub(crate) fn expect(&mut self, t: u64)
        ensures { self.new ≡ expecting t self.old }
    {
        match &mut self.unit {
            AnyUnit::Clockless => {}
            AnyUnit::Narrow(unit) => unit.expect(t),
            AnyUnit::Wide(unit) => unit.expect(t),
        }
    }

    /// The edges that are kept.
    pub(crate) fn edges(&self) -> &[Edge]
        ensures { result.now ≡ edges_kept self.now }
    {
        match &self.unit {
            AnyUnit::Clockless => &[],
            AnyUnit::Narrow(unit) => unit.edges.edges(),
            AnyUnit::Wide(unit) => unit.edges.edges(),
        }
    }

    fn live(&self) -> Live
        ensures { result ≡ live self.now.registers self.now.timing }
    {
        match &self.unit {
            AnyUnit::Clockless => Live {
                system_time: None,
                next_due: None,
            },
            AnyUnit::Narrow(unit) => unit.live(&self.registers),
            AnyUnit::Wide(unit) => unit.live(&self.registers),
        }
    }

    /// Puts the low half of the local time into the receive time of a port.
    pub(crate) fn latch_port(&mut self, port: Port)
        ensures { self.new ≡ on_measuring (port_latched (address_of port)) self.old }
    {
        let time = match &self.unit {
            AnyUnit::Clockless => return,
            AnyUnit::Narrow(unit) => unit.clock.reading().low(),
            AnyUnit::Wide(unit) => unit.clock.reading().low(),
        };
        let time = time.value() as u32;
        match port {
            Port::P3 => self.registers.set(ReceivePort3::new(), time),
            Port::P1 => self.registers.set(ReceivePort1::new(), time),
            Port::P2 => self.registers.set(ReceivePort2::new(), time),
        }
    }
}
