ghost use Rattle.std.specs.Prelude.{◌≡◌};
ghost use Rattle.segments.specs.Shape.{shape_fault_number};

use std::alloc::AllocError;
use thiserror::Error;

/// Why segments make no ring shape.
#[derive(Clone, Copy, Debug, Error, PartialEq, Eq)]
pub enum ShapeFault {
    /// The segments break a rule of shapes.
    #[error("segments that make no ring")]
    Shape,
    /// A growth of memory was refused.
    #[error("memory is wanted")]
    Memory,
}

impl ShapeFault {
    /// The number that is printed.
    pub fn number(self) -> u8
        ensures { result ≡ shape_fault_number self }
    {
        match self {
            ShapeFault::Shape => 5,
            ShapeFault::Memory => 30,
        }
    }
}

impl From<AllocError> for ShapeFault {
    ghost use Rattle.std.specs.Prelude.{◌≡◌};
    ghost use Rattle.segments.specs.declared.fault.ShapeFault.TheVariants.{Memory};

    ghost from_gives = { λ _ fault. fault ≡ Memory };

    fn from(_refused: AllocError) -> ShapeFault {
        ShapeFault::Memory
    }
}
