ghost use Rattle.std.specs.Prelude.{◌≡◌, ◌<◌, ◌∷◌, ◌++◌, ◌&&◌, [], length, nat_lt, remove, true, IfOk, OnErr, OnOk};
ghost use Rattle.std.specs.List.{list_all, list_any};
ghost use Rattle.segments.specs.Shape.{is_shape};
ghost use Rattle.traces.specs.AllowedHeaders.{AreUnmoved, IsHeader, are_unmoved, clash, may_stand_together};

use crate::ring::Ring;
use crate::version::Version;
use contexts::ContextSize;
use std::alloc::{AllocError, Global};
use std::marker::Model;

/// The rings of a trace, in the order of their declaration. Contracts see the list.
#[derive(Debug, Drop)]
pub struct Rings {
    rings: Vec<Ring>,
}

impl Model for Rings {
    ghost use Rattle.std.specs.Prelude.{List};
    ghost use Rattle.traces.specs.declared.ring.Ring.{Ring};

    ghost Value = { List Ring };

    ghost view = { λ r. r.rings.items };
}

impl Rings {
    /// The rings of a vector.
    pub fn new(rings: Vec<Ring>) -> Rings
        ensures { result ≡ rings.items }
    {
        Rings { rings }
    }

    /// The rings, in their order.
    pub fn as_slice(&self) -> &[Ring]
        ensures { result.now ≡ self.now }
    {
        self.rings.as_slice()
    }

    /// One ring more, at the end. Want of memory changes nothing.
    pub fn push(&mut self, ring: Ring) -> Result<(), AllocError>
        ensures ok { OnOk result (self.new ≡ self.old ++ ring ∷ []) }
        ensures err { OnErr result (self.new ≡ self.old) }
    {
        self.rings.push(ring)?;
        Ok(())
    }

    /// One ring more, before all others. Want of memory changes nothing.
    pub fn push_first(&mut self, ring: Ring) -> Result<(), AllocError>
        ensures ok { OnOk result (self.new ≡ ring ∷ self.old) }
        ensures err { OnErr result (self.new ≡ self.old) }
    {
        self.rings.insert(0, ring)?;
        Ok(())
    }

    /// Without the ring that has this number: those behind it move up.
    pub fn remove(&mut self, number: usize)
        requires { number < length self.now }
        ensures { self.new ≡ remove self.old number }
    {
        self.rings.remove(number);
    }
}

/// What the lines before the rows say.
#[derive(Debug, Drop)]
pub struct Header {
    /// By which rules the rows are judged.
    pub version: Version,
    /// 32 or 64 bytes a context (xHCI 5.3.6, CSZ).
    pub context_size: ContextSize,
    /// The rings, in the order of their declaration.
    pub rings: Rings,
}

impl Header {
    /// An equal header in memory of its own.
    pub fn copy(&self, alloc: Global) -> Result<Header, AllocError>
        ensures { IfOk result (λ copy. copy ≡ self.now) }
    {
        Ok(Header {
            version: self.version,
            context_size: self.context_size,
            rings: Rings::new(copy_rings(alloc, self.rings.as_slice())?),
        })
    }

    /// Whether its rings haven't grown and may stand together: so it is of each header that was read, and asked of one that is made by hand.
    /// Each two rings are compared. That shapes are allowed is so of every `RingShape`, and told besides.
    pub fn fits(&self) -> bool
        ensures same { result ≡ (are_unmoved self.now.rings && may_stand_together self.now.rings) }
        ensures headed { result ≡ true → IsHeader self.now }
        ensures unmoved { result ≡ true → AreUnmoved self.now.rings }
    {
        read_rings(self.rings.as_slice());
        are_unmoved(self.rings.as_slice()) && may_stand_together(self.rings.as_slice())
    }
}

/// The ID of each ring has 8 bits, and its shape is allowed.
fn read_rings(rings: &[Ring])
    ensures { list_all (λ r. nat_lt r.id 256 && is_shape r.shape) rings.now ≡ true }
{
    for ring in rings {
        let _id = ring.id;
        let _places = ring.shape.places();
    }
}

/// None of the rings has grown.
fn are_unmoved(rings: &[Ring]) -> bool
    ensures { result ≡ are_unmoved rings.now }
{
    rings.iter().all(|ring| ring.shape.is_unmoved())
}

/// No two of the rings clash.
fn may_stand_together(rings: &[Ring]) -> bool
    ensures { result ≡ may_stand_together rings.now }
{
    let mut rest = rings;
    while let Some((ring, others)) = rest.split_first() {
        if clashes_with_one(ring, others) {
            return false;
        }
        rest = others;
    }
    true
}

fn clashes_with_one(ring: &Ring, others: &[Ring]) -> bool
    ensures { result ≡ list_any (clash ring.now) others.now }
{
    others.iter().any(|other| ring.clashes_with(other))
}

fn copy_rings(alloc: Global, rings: &[Ring]) -> Result<Vec<Ring>, AllocError>
    ensures { IfOk result (λ copies. copies.items ≡ rings.now) }
{
    let mut copies = Vec::new(alloc);
    for ring in rings {
        copies.push(ring.copy()?)?;
    }
    Ok(copies)
}
