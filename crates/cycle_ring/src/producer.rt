ghost use Rattle.std.specs.Prelude.{◌≡◌, ◌≢◌, ◌+◌, ◌++◌, ◌↔◌, true, false, length, IsErr, OnOk, OnErr};
ghost use Rattle.std.specs.Option.{SomeIff};
ghost use Rattle.trb.specs.declared.fault.Fault.TheVariants.{BadDescriptor, NotInProfile};
ghost use Rattle.segments.specs.Shape.{IsShape};
ghost use Rattle.cycle_ring.specs.Progress.{has_room, HasFault, IsAllowed, is_given_count};
ghost use Rattle.cycle_ring.specs.Writes.{writes_of};
ghost use Rattle.cycle_ring.specs.Played.{appended, BlocksStand, LinksStand, OthersStay, GivenLast};
ghost use Rattle.cycle_ring.specs.RingRules.{MayBeDeclared, KeepTheRing, BeginsWithTheRing, FollowsPassed};

use crate::fault::{EnqueueFault, NotGiven};
use crate::writes::writes_of;
use guest_memory::Addr;
use segments::RingShape;
use std::marker::Model;
use trb::{Block, RingKind, descriptor_fault};

/// A producer for a command or transfer ring: where its next block goes, and how much the controller is known to have
/// passed (xHCI 4.9.2). Contracts see its `Progress`.
#[derive(Debug, Drop)]
pub struct Producer {
    shape: RingShape,
    enqueued: u64,
    retired: u64,
}

impl Model for Producer {
    ghost use Rattle.std.specs.Prelude.{◌≤◌};
    ghost use Rattle.cycle_ring.specs.Progress.{Progress};

    ghost Value = { Progress };

    ghost view = { λ p. record { shape = p.shape; enqueued = p.enqueued; retired = p.retired } };

    ghost invariant = { λ p. p.retired ≤ p.enqueued };
}

impl Producer {
    /// A producer at the first place of a ring, which is no event ring.
    pub fn new(shape: RingShape) -> Producer
        requires { shape.kind ≢ RingKind.Evt }
        ensures value { result ≡ record { shape = shape; enqueued = 0; retired = 0 } }
        ensures begins { BeginsWithTheRing result }
    {
        Producer {
            shape,
            enqueued: 0,
            retired: 0,
        }
    }

    /// How many blocks are enqueued with this many more, where there is room for them.
    fn end_after(&self, more: usize) -> Option<u64>
        ensures end { SomeIff result (has_room self.now more ≡ true) (self.now.enqueued + more) }
        ensures shape { IsShape self.now.shape }
    {
        let places = u64::from(self.shape.places());
        let end = self.enqueued.checked_add(more as u64)?;
        (end - self.retired < places).then_some(end)
    }

    /// Appends to `out` the words that give these blocks to the controller as one descriptor, in the order in which
    /// they are to be written.
    pub fn enqueue(
        &mut self,
        blocks: &[Block],
        out: &mut Vec<(Addr, u32)>,
    ) -> Result<(), EnqueueFault>
        ensures writes { OnOk result (out.new.items ≡ out.old.items ++ writes_of self.old.shape self.old.enqueued blocks.now) }
        ensures enqueued { OnOk result (self.new ≡ record self.old { enqueued = self.old.enqueued + length blocks.now }) }
        ensures allowed { OnOk result (IsAllowed self.old blocks.now) }

        // Played into any memory, the appended writes put the blocks and the Links before them at their places, and no other word.
        ensures blocks { OnOk result (BlocksStand self.old.shape self.old.enqueued blocks.now (appended out.old.items out.new.items)) }
        ensures links { OnOk result (LinksStand self.old.shape self.old.enqueued blocks.now (appended out.old.items out.new.items)) }
        ensures others { OnOk result (OthersStay self.old.shape self.old.enqueued blocks.now (appended out.old.items out.new.items)) }

        // Until the last of them is written, the first block is not given.
        ensures last { OnOk result (GivenLast self.old.shape self.old.enqueued (appended out.old.items out.new.items)) }

        // Where the ring is as the producer has it, the blocks may be declared; then each of the writes keeps the ring's rules.
        ensures declared { OnOk result (MayBeDeclared self.old blocks.now) }
        ensures rules { OnOk result (KeepTheRing self.old blocks.now (appended out.old.items out.new.items)) }

        // Of several faults the one with the least number is told.
        ensures full { (result ≡ Err EnqueueFault.RingFull) ↔ (has_room self.old (length blocks.now) ≡ false) }
        ensures bad { (result ≡ Err EnqueueFault.BadDescriptor) ↔ HasFault self.old blocks.now BadDescriptor }
        ensures left_out { (result ≡ Err EnqueueFault.NotInProfile) ↔ HasFault self.old blocks.now NotInProfile }
        ensures err { OnErr result (self.new ≡ self.old) }
        ensures out_err { OnErr result (out.new.items ≡ out.old.items) }
    {
        let Some(end) = self.end_after(blocks.len()) else {
            return Err(EnqueueFault::RingFull);
        };
        if let Some(fault) = descriptor_fault(self.shape.kind(), blocks) {
            return Err(fault.into());
        }
        let writes = writes_of(*out.allocator(), &self.shape, self.enqueued, blocks)?;
        out.extend_from_slice(&writes)?;
        self.enqueued = end;
        Ok(())
    }

    /// Says that the controller has passed the first `upto` blocks, so that their places are free again.
    pub fn retire(&mut self, upto: u64) -> Result<(), NotGiven>
        ensures refused { IsErr result ↔ (is_given_count self.old upto ≡ false) }
        ensures retired { OnOk result (self.new ≡ record self.old { retired = upto }) }
        ensures passed { OnOk result (FollowsPassed self.old upto self.new) }
        ensures err { OnErr result (self.new ≡ self.old) }
    {
        if upto < self.retired || upto > self.enqueued {
            return Err(NotGiven);
        }
        // a ring has such a shape, on which its rules rest
        prove!(self.shape.places() > 0);
        self.retired = upto;
        Ok(())
    }
}
