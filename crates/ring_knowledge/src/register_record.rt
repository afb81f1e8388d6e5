ghost use Rattle.std.specs.Prelude.{ℕ, ◌≡◌, ◌<◌, ◌==◌, ◌&&◌, if◌then◌else◌, false};
ghost use Rattle.traces.specs.Halts.{is_asked, seen};
ghost use Rattle.traces.specs.Header.{command_id};
ghost use Rattle.traces.specs.Register.{halted_bit, ordinal};
ghost use Rattle.traces.specs.declared.header.Header.{Header};
ghost use Rattle.ring_knowledge.specs.Known.{Known, nothing};
ghost use Rattle.ring_knowledge.specs.Histories.{gone};
ghost use Rattle.ring_knowledge.specs.Registers.{register_read, register_written, run_or_stop, runs_again, runs_once};
ghost use Rattle.ring_knowledge.specs.Resets.{reset};

use traces::{Halt, Register, Version};

/// What one pass over a trace keeps of the registers: the last value written to each, to CRCR while the command ring was there
/// that is there now, whether the controller was started, and after that stopped, and how far it is in halting (xHCI 5.4.1,
/// 5.4.2). Contracts compare it with what is `Known`.
#[derive(Drop)]
pub struct RegisterRecord {
    /// By the number of a register.
    values: [Option<u64>; 11],
    started: bool,
    stopped: bool,
    halt: Halt,
}

impl RegisterRecord {
    ghost use Rattle.ring_knowledge.specs.RegisterRecords.{FollowsRegisters, FollowsRun};

    /// The record before any register is written.
    pub fn new() -> RegisterRecord
        ensures { FollowsRegisters nothing result }
    {
        RegisterRecord {
            values: [None; 11],
            started: false,
            stopped: false,
            halt: Halt::Not,
        }
    }

    /// Whether the controller was started.
    pub fn is_started(&self) -> bool
        ensures { (k : Known) → FollowsRegisters k self.now → result ≡ k.started }
    {
        self.started
    }

    /// Whether the controller, which runs but once, was stopped or reset after it was started.
    pub fn is_stopped(&self) -> bool
        ensures { (k : Known) → FollowsRegisters k self.now → result ≡ k.stopped }
    {
        self.stopped
    }

    /// How far the controller is in halting, as far as was seen.
    pub fn halt(&self) -> Halt
        ensures { (k : Known) → FollowsRegisters k self.now → result ≡ k.halt }
    {
        self.halt
    }

    /// The last value written to a register.
    pub fn value(&self, register: Register) -> Option<u64>
        ensures { (k : Known) → FollowsRegisters k self.now → result ≡ k.register register }
    {
        self.values[ordinal(register)]
    }

    /// Notes a write of a register, in a trace of this version.
    pub fn write(&mut self, version: Version, register: Register, value: u64)
        ensures { (h : Header) (k : Known) → h.version ≡ version → FollowsRegisters k self.old → FollowsRegisters (register_written h k register value) self.new }
    {
        self.values[ordinal(register)] = Some(value);
        match register {
            Register::Usbcmd => self.run_or_stop(version, value),
            _ => {}
        }
    }

    /// Notes that a register was read.
    pub fn read(&mut self, register: Register, value: u64)
        ensures { (k : Known) → FollowsRegisters k self.old → FollowsRegisters (register_read k register value) self.new }
    {
        match register {
            Register::Usbsts => self.note_status(value),
            _ => {}
        }
    }

    fn note_status(&mut self, value: u64)
        ensures { self.new ≡ record self.old { halt = if is_asked self.old.halt && halted_bit value then seen self.old.halt value else self.old.halt } }
    {
        if self.halt.is_asked() && value % 2 == 1 {
            self.halt = self.halt.seen(value);
        }
    }

    /// Notes that the controller was reset: nothing is known of its registers.
    pub fn reset(&mut self)
        ensures { (h : Header) (k : Known) → FollowsRegisters k self.old → k.stopped ≡ false → FollowsRegisters (reset h k) self.new }
    {
        *self = RegisterRecord::new();
    }

    /// Notes that a ring goes: of CRCR nothing is known any more if it is the command ring.
    pub fn let_ring_go(&mut self, is_command_ring: bool)
        ensures { (h : Header) (k : Known) (id : ℕ) → is_command_ring ≡ (id == command_id h) → FollowsRegisters k self.old → FollowsRegisters (gone h k id) self.new }
    {
        if is_command_ring {
            self.values[ordinal(Register::Crcr)] = None;
        }
    }

    /// Notes what a value of USBCMD starts or stops.
    fn run_or_stop(&mut self, version: Version, value: u64)
        ensures values { self.new.values ≡ self.old.values }
        ensures follows { (h : Header) (k : Known) → h.version ≡ version → FollowsRun k self.old → FollowsRun (run_or_stop h k value) self.new }
    {
        if version.has_runs() {
            self.run_again(value)
        } else {
            self.run_once(value)
        }
    }

    fn run_once(&mut self, value: u64)
        ensures values { self.new.values ≡ self.old.values }
        ensures follows { (k : Known) → FollowsRun k self.old → FollowsRun (runs_once k value) self.new }
    {
        let runs = value % 2 == 1;
        let resets = value / 2 % 2 == 1;
        if self.started {
            self.stopped = self.stopped || !runs || resets;
        } else {
            self.started = runs && !resets;
        }
    }

    /// A reset is told apart.
    fn run_again(&mut self, value: u64)
        ensures values { self.new.values ≡ self.old.values }
        ensures follows { (k : Known) → FollowsRun k self.old → FollowsRun (runs_again k value) self.new }
    {
        let runs = value % 2 == 1;
        let resets = value / 2 % 2 == 1;
        if resets {
            return;
        }
        if runs {
            self.started = true;
            self.halt = Halt::Not;
        } else if self.started {
            self.halt = self.halt.told(value);
        }
    }
}

/// A number of its own for each register.
fn ordinal(register: Register) -> usize
    ensures value { result ≡ ordinal register }
    ensures below { result < 11 }
{
    match register {
        Register::Usbcmd => 0,
        Register::Usbsts => 1,
        Register::Dnctrl => 2,
        Register::Crcr => 3,
        Register::Dcbaap => 4,
        Register::Config => 5,
        Register::Iman => 6,
        Register::Imod => 7,
        Register::Erstsz => 8,
        Register::Erstba => 9,
        Register::Erdp => 10,
    }
}
