ghost use Rattle.std.specs.Prelude.{◌≡◌};
ghost use Rattle.contexts.specs.Contexts.{bytes_of};

/// How large each context is (the Context Size bit of HCCPARAMS1, xHCI 5.3.6).
#[derive(Clone, Copy, Debug, PartialEq, Eq)]
pub enum ContextSize {
    Bytes32,
    Bytes64,
}

impl ContextSize {
    /// The size in bytes.
    pub fn bytes(self) -> u64
        ensures { result ≡ bytes_of self }
    {
        match self {
            ContextSize::Bytes32 => 32,
            ContextSize::Bytes64 => 64,
        }
    }
}
