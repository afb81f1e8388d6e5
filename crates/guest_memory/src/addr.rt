ghost use Rattle.std.specs.Prelude.{◌≡◌, ◌+◌, ◌%◌, ◌^◌, ◌<◌, ◌↔◌, IsSome, IfSome};

use std::marker::Model;

/// The address of a 32-bit word: a multiple of 4 below 2^64. Contracts see the number.
#[derive(Clone, Copy, Debug)]
pub struct Addr {
    value: u64,
}

impl Model for Addr {
    ghost use Rattle.std.specs.Prelude.{◌≡◌, ℕ, ◌%◌};

    ghost Value = { ℕ };

    ghost view = { λ a. a.value };

    ghost invariant = { λ a. a.value % 4 ≡ 0 };

    ghost inverse = { λ n. record { value = n } };
}

impl Addr {
    /// The address, where it is one of a word.
    pub fn new(value: u64) -> Option<Addr>
        ensures found { IsSome result ↔ (value % 4 ≡ 0) }
        ensures same { IfSome result (λ a. a ≡ value) }
    {
        if value % 4 == 0 {
            Some(Addr { value })
        } else {
            None
        }
    }

    /// The number.
    pub fn get(self) -> u64
        ensures same { result ≡ self }
        ensures aligned { self % 4 ≡ 0 }
    {
        self.value
    }

    /// The address so many bytes further, on words.
    pub(crate) fn next(self, bytes: u64) -> Addr
        requires aligned { bytes % 4 ≡ 0 }
        requires fits { self + bytes < 2 ^ 64 }
        ensures { result ≡ self + bytes }
    {
        Addr {
            value: self.value + bytes,
        }
    }
}
