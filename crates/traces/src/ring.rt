ghost use Rattle.std.specs.Prelude.{◌≡◌, true, IfOk};
ghost use Rattle.traces.specs.AllowedHeaders.{clash};
ghost use Rattle.traces.specs.Header.{is_command_kind, is_event_kind};
ghost use Rattle.traces.specs.Rows.{IsComing};

use segments::RingShape;
use std::alloc::AllocError;
use trb::RingKind;

/// A ring that the driver declares (xHCI 4.9).
#[derive(Debug, Drop)]
pub struct Ring {
    /// The number by which the rows of a trace name the ring.
    pub id: u8,
    /// What the ring carries, and where its segments lie.
    pub shape: RingShape,
}

impl Ring {
    /// An equal ring in memory of its own.
    pub fn copy(&self) -> Result<Ring, AllocError>
        ensures { IfOk result (λ copy. copy ≡ self.now) }
    {
        Ok(Ring {
            id: self.id,
            shape: self.shape.copy()?,
        })
    }

    /// It can't stand beside the other ring: both have the ID, a segment of one overlaps one of the other, or both are the Command Ring, or
    /// the Event Ring.
    pub fn clashes_with(&self, other: &Ring) -> bool
        ensures { result ≡ clash self.now other.now }
    {
        self.id == other.id
            || self.shape.overlaps_ring(&other.shape)
            || (self.is_command() && other.is_command())
            || (self.is_event() && other.is_event())
    }

    /// It hasn't grown. Its ID has 8 bits and its shape is allowed, as it is of every ring: both are read, and nothing is done with them.
    pub(crate) fn fits_fields(&self) -> bool
        ensures fits { result ≡ true → IsComing self.now }
        ensures unfit { IsComing self.now → result ≡ true }
    {
        let _id = self.id;
        let _places = self.shape.places();
        self.shape.is_unmoved()
    }

    /// It is the Command Ring.
    fn is_command(&self) -> bool
        ensures { result ≡ is_command_kind self.now.shape.kind }
    {
        matches!(self.shape.kind(), RingKind::Cmd)
    }

    /// It is the Event Ring.
    fn is_event(&self) -> bool
        ensures { result ≡ is_event_kind self.now.shape.kind }
    {
        matches!(self.shape.kind(), RingKind::Evt)
    }
}
