ghost use Rattle.std.specs.Prelude.{◌≡◌};
ghost use Rattle.traces.specs.Halts.{is_asked, is_done, is_saved, is_unrestored, seen, told};

/// How far a controller is in halting, and what became of the state that it saves then (xHCI 4.23.2, 5.4.1.1, 5.4.2).
#[derive(Clone, Copy, Debug, PartialEq, Eq)]
pub enum Halt {
    /// It isn't to halt: R/S is 1, or it wasn't started.
    Not,
    /// R/S was cleared in a run.
    Asked,
    /// It has halted since.
    Done,
    /// And was told to save its state (CSS).
    Saved,
    /// And behind that to restore it (CRS).
    Restoring,
    /// And has: USBSTS was read with RSS 0 and SRE 0.
    Restored,
}

impl Halt {
    /// It is to halt, or has.
    pub fn is_asked(self) -> bool
        ensures { result ≡ is_asked self }
    {
        !matches!(self, Halt::Not)
    }

    /// It has halted.
    pub fn is_done(self) -> bool
        ensures { result ≡ is_done self }
    {
        !matches!(self, Halt::Not | Halt::Asked)
    }

    /// It has saved its state.
    pub fn is_saved(self) -> bool
        ensures { result ≡ is_saved self }
    {
        matches!(self, Halt::Saved | Halt::Restoring | Halt::Restored)
    }

    /// It has saved its state, and isn't known to have restored it.
    pub fn is_unrestored(self) -> bool
        ensures { result ≡ is_unrestored self }
    {
        matches!(self, Halt::Saved | Halt::Restoring)
    }

    /// Behind a value of USBCMD with R/S 0, in a run.
    pub fn told(self, value: u64) -> Halt
        ensures { result ≡ told self value }
    {
        let saves = value / 256 % 2 == 1;
        let restores = value / 512 % 2 == 1;
        match self {
            Halt::Not | Halt::Asked => Halt::Asked,
            _ if saves => Halt::Saved,
            Halt::Saved | Halt::Restored if restores => Halt::Restoring,
            _ => self,
        }
    }

    /// Behind a value of USBSTS with HCHalted 1.
    pub fn seen(self, value: u64) -> Halt
        ensures { result ≡ seen self value }
    {
        match self {
            Halt::Asked => Halt::Done,
            Halt::Restoring if value / 512 % 4 == 0 => Halt::Restored,
            _ => self,
        }
    }
}
