ghost use Rattle.std.specs.Prelude.{◌≡◌};
ghost use Rattle.traces.specs.Register.{register_name, is_wide};

/// A register that a trace may write (xHCI 5.4, 5.5.2).
#[derive(Clone, Copy, Debug, PartialEq, Eq)]
pub enum Register {
    /// USBCMD, 32 bits (5.4.1).
    Usbcmd,
    /// USBSTS, 32 bits (5.4.2).
    Usbsts,
    /// DNCTRL, 32 bits (5.4.4).
    Dnctrl,
    /// CRCR, 64 bits (5.4.5).
    Crcr,
    /// DCBAAP, 64 bits (5.4.6).
    Dcbaap,
    /// CONFIG, 32 bits (5.4.7).
    Config,
    /// IMAN of interrupter 0, 32 bits (5.5.2.1).
    Iman,
    /// IMOD of interrupter 0, 32 bits (5.5.2.2).
    Imod,
    /// ERSTSZ of interrupter 0, 32 bits (5.5.2.3.1).
    Erstsz,
    /// ERSTBA of interrupter 0, 64 bits (5.5.2.3.2).
    Erstba,
    /// ERDP of interrupter 0, 64 bits (5.5.2.3.3).
    Erdp,
}

impl Register {
    /// All registers.
    pub const ALL: [Register; 11] = [
        Register::Usbcmd,
        Register::Usbsts,
        Register::Dnctrl,
        Register::Crcr,
        Register::Dcbaap,
        Register::Config,
        Register::Iman,
        Register::Imod,
        Register::Erstsz,
        Register::Erstba,
        Register::Erdp,
    ];

    /// The word for it in a trace.
    pub fn name(self) -> &'static str
        ensures { result.now ≡ register_name self }
    {
        match self {
            Register::Usbcmd => "usbcmd",
            Register::Usbsts => "usbsts",
            Register::Dnctrl => "dnctrl",
            Register::Crcr => "crcr",
            Register::Dcbaap => "dcbaap",
            Register::Config => "config",
            Register::Iman => "iman",
            Register::Imod => "imod",
            Register::Erstsz => "erstsz",
            Register::Erstba => "erstba",
            Register::Erdp => "erdp",
        }
    }

    /// The register has 64 bits; the others have 32.
    pub fn is_wide(self) -> bool
        ensures { result ≡ is_wide self }
    {
        matches!(
            self,
            Register::Crcr | Register::Dcbaap | Register::Erstba | Register::Erdp
        )
    }
}
