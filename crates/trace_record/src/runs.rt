//! What the rules ask of a controller that halts, goes on or is reset (xHCI 4.2, 5.4.1, 5.4.2).
ghost use Rattle.std.specs.Prelude.{◌≡◌, ◌&&◌, ◌||◌, ℕ, None, false, if◌then◌else◌, not, true};
ghost use Rattle.trb.specs.declared.ring_kind.RingKind.TheVariants.{Cmd, Evt};
ghost use Rattle.traces.specs.Halts.{is_asked, is_done};
ghost use Rattle.traces.specs.Header.{command_ring, event_ring, is_command_kind, is_event_kind};
ghost use Rattle.traces.specs.AllowedHeaders.{IsHeader};
ghost use Rattle.traces.specs.declared.header.Header.{Header as HeaderValue};
ghost use Rattle.ring_knowledge.specs.Known.{Known};
ghost use Rattle.ring_knowledge.specs.RegisterRecords.{FollowsRegisters};
ghost use Rattle.ownership_rules.specs.Registers.{is_at_rest, is_early_reset, is_early_restore, is_early_resume, is_early_save, is_impossible_read, is_in_run, is_restored, is_run, saves_badly};
ghost use Rattle.ownership_rules.specs.Rings.{is_bad_kind, is_in_use};
ghost use Rattle.trace_record.specs.Premises.{StartedIsThere};
ghost use Rattle.trace_record.specs.RingFinder.Finding.{IsFinder};
ghost use Rattle.trace_record.specs.RingFinder.RecordsOfRings.{FollowsRings};

use crate::ring_finder::Finder;
use crate::trace_record::TraceRecord;
use traces::{Header, Register};
use trb::RingKind;

impl TraceRecord {
    /// Whether the controller was started, and wasn't seen to have halted.
    pub fn is_in_run(&self) -> bool
        ensures { (k : Known) → FollowsRegisters k self.now.registers → result ≡ is_in_run k }
    {
        self.registers.is_started() && !self.registers.halt().is_done()
    }

    /// Whether the register has this value, and the controller was seen to have halted: so it is restored.
    pub fn is_restored(&self, register: Register, value: u64) -> bool
        ensures { (k : Known) → FollowsRegisters k self.now.registers → result ≡ is_restored k register value }
    {
        self.registers.halt().is_done() && self.registers.value(register) == Some(value)
    }

    /// Whether a value of USBCMD lets a controller that halts go on before it was seen to have halted, or with a state that it saved and
    /// isn't known to have restored, or with another command ring than CRCR names, or with commands that aren't finished.
    pub fn is_early_resume(&self, header: &Header, finder: &Finder, value: u64) -> bool
        requires headed { IsHeader header.now }
        requires found { IsFinder header.now.rings finder.now }
        ensures { (k : Known) → FollowsRegisters k self.now.registers → FollowsRings header.now k self.now.rings.items → StartedIsThere header.now k → result ≡ is_early_resume header.now k value }
    {
        let halt = self.registers.halt();
        if !halt.is_asked() {
            return false;
        }
        if !is_run(value) {
            return false;
        }
        if !halt.is_done() || halt.is_unrestored() {
            return true;
        }
        self.registers.value(Register::Crcr).is_none() || self.may_be_taken(header, finder)
    }

    /// Whether a value of USBCMD has a controller that runs more than once save its state (CSS) or restore it (CRS) where it can't
    /// (xHCI 4.23.2).
    pub fn saves_badly(&self, header: &Header, finder: &Finder, value: u64) -> bool
        requires headed { IsHeader header.now }
        requires found { IsFinder header.now.rings finder.now }
        ensures { (k : Known) → FollowsRegisters k self.now.registers → FollowsRings header.now k self.now.rings.items → StartedIsThere header.now k → result ≡ saves_badly header.now k value }
    {
        let runs_again = header.version.has_runs();
        if !runs_again {
            return false;
        }
        self.is_early_save(header, finder, value) || self.is_early_restore(value)
    }

    /// Whether it saves its state before it was seen to have halted, or with commands that aren't finished.
    fn is_early_save(&self, header: &Header, finder: &Finder, value: u64) -> bool
        requires headed { IsHeader header.now }
        requires found { IsFinder header.now.rings finder.now }
        ensures { (k : Known) → FollowsRegisters k self.now.registers → FollowsRings header.now k self.now.rings.items → StartedIsThere header.now k → result ≡ is_early_save header.now k value }
    {
        if value / 256 % 2 == 0 {
            return false;
        }
        if !self.is_at_rest(value) {
            return true;
        }
        self.may_be_taken(header, finder)
    }

    /// Whether it restores its state before it was seen to have halted, or beside saving one, or where none was saved.
    fn is_early_restore(&self, value: u64) -> bool
        ensures { (k : Known) → FollowsRegisters k self.now.registers → result ≡ is_early_restore k value }
    {
        let saves = value / 256 % 2 == 1;
        let restores = value / 512 % 2 == 1;
        restores && (!self.is_at_rest(value) || saves || !self.registers.halt().is_saved())
    }

    /// Whether the controller was seen to have halted, and a value of USBCMD neither lets it go on nor resets it.
    fn is_at_rest(&self, value: u64) -> bool
        ensures { (k : Known) → FollowsRegisters k self.now.registers → result ≡ is_at_rest k value }
    {
        self.registers.halt().is_done() && value % 2 == 0 && value / 2 % 2 == 0
    }

    /// Whether a value of USBCMD resets a controller that runs more than once while it runs, or with a gap in its command ring.
    pub fn is_early_reset(&self, header: &Header, finder: &Finder, value: u64) -> bool
        requires headed { IsHeader header.now }
        requires found { IsFinder header.now.rings finder.now }
        ensures { (k : Known) → FollowsRegisters k self.now.registers → FollowsRings header.now k self.now.rings.items → result ≡ is_early_reset header.now k value }
    {
        if !header.version.has_runs() {
            return false;
        }
        if value / 2 % 2 == 0 {
            return false;
        }
        !self.registers.halt().is_done() || self.has_gap(header, finder)
    }

    /// Whether a register can't have been read with this value: USBSTS shows HCHalted while the controller runs, or doesn't where it was
    /// never started, or was seen to have halted.
    pub fn is_impossible_read(&self, register: Register, value: u64) -> bool
        ensures { (h : HeaderValue) (k : Known) → FollowsRegisters k self.now.registers → result ≡ is_impossible_read h k register value }
    {
        match register {
            Register::Usbsts => self.is_impossible_status(value % 2 == 1),
            _ => false,
        }
    }

    /// The same of USBSTS, by its HCHalted.
    fn is_impossible_status(&self, has_halted: bool) -> bool
        ensures { (k : Known) → FollowsRegisters k self.now.registers → result ≡ (if has_halted then k.started && not (is_asked k.halt) else not k.started || is_done k.halt) }
    {
        let halt = self.registers.halt();
        if has_halted {
            self.registers.is_started() && !halt.is_asked()
        } else {
            !self.registers.is_started() || halt.is_done()
        }
    }

    /// Whether a ring of this kind can't come now: it would be a second command or event ring, or the controller may use it.
    pub fn is_bad_kind(&self, header: &Header, finder: &Finder, kind: RingKind) -> bool
        requires headed { IsHeader header.now }
        requires found { IsFinder header.now.rings finder.now }
        ensures rule { (k : Known) → FollowsRegisters k self.now.registers → result ≡ is_bad_kind header.now k kind }
        ensures commands { result ≡ false → is_command_kind kind ≡ true → command_ring header.now ≡ None }
        ensures events { result ≡ false → is_event_kind kind ≡ true → event_ring header.now ≡ None }
    {
        match kind {
            RingKind::Cmd => finder.commands.is_some() || self.is_in_run(),
            RingKind::Evt => finder.events.is_some() || self.registers.is_started(),
            RingKind::Xfer => false,
        }
    }

    /// Whether the command ring is in use: the controller runs, or commands aren't finished.
    pub fn uses_command_ring(&self, header: &Header, finder: &Finder) -> bool
        requires headed { IsHeader header.now }
        requires found { IsFinder header.now.rings finder.now }
        ensures { (k : Known) (id : ℕ) → FollowsRegisters k self.now.registers → FollowsRings header.now k self.now.rings.items → StartedIsThere header.now k → result ≡ is_in_use header.now k id Cmd }
    {
        if !self.registers.is_started() {
            return false;
        }
        !self.registers.halt().is_done() || self.may_be_taken(header, finder)
    }

    /// Whether the event ring is in use: the controller was started, or it was set up.
    pub fn uses_event_ring(&self) -> bool
        ensures { (h : HeaderValue) (k : Known) (id : ℕ) → FollowsRegisters k self.now.registers → result ≡ is_in_use h k id Evt }
    {
        self.registers.is_started() || self.registers.value(Register::Erstsz).is_some()
    }
}

/// R/S is 1, and HCRST 0.
fn is_run(value: u64) -> bool
    ensures { result ≡ is_run value }
{
    value % 2 == 1 && value / 2 % 2 == 0
}
