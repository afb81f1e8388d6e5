ghost use Rattle.std.specs.Prelude.{◌≡◌, IfOk};

use crate::ring::Ring;
use std::alloc::{AllocError, Global};
use std::marker::Model;

/// A ring that a row holds out of line, so that the rows stay small. Contracts see the ring.
#[derive(Debug, Drop)]
pub struct BoxedRing {
    ring: Box<Ring>,
}

impl Model for BoxedRing {
    ghost use Rattle.traces.specs.declared.ring.Ring.{Ring};

    ghost Value = { Ring };

    ghost view = { λ boxed. boxed.ring.value };
}

impl BoxedRing {
    /// The ring, out of line.
    pub fn new(alloc: Global, ring: Ring) -> Result<BoxedRing, AllocError>
        ensures { IfOk result (λ boxed. boxed ≡ ring) }
    {
        let ring = Box::new(alloc, ring)?;
        Ok(BoxedRing { ring })
    }

    /// The ring.
    pub fn as_ring(&self) -> &Ring
        ensures { result.now ≡ self.now }
    {
        &self.ring
    }

    /// The ring, by itself.
    pub fn into_ring(self) -> Ring
        ensures { result ≡ self }
    {
        Box::into_inner(self.ring)
    }
}
