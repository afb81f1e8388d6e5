//! What is told of the leases that begin and end with the rows of a trace.
ghost use Rattle.std.specs.Prelude.{◌≡◌, ◌≤◌, ℕ, [], ◌∷◌, true, List, length, map, OnOk};
ghost use Rattle.segments.specs.Places.{is_crossing};
ghost use Rattle.traces.specs.declared.header.Header.{Header};
ghost use Rattle.traces.specs.Header.{shape_of};
ghost use Rattle.ring_knowledge.specs.declared.lease.Lease.{Lease};
ghost use Rattle.ownership_rules.specs.OpenLeases.{Block, Link, Range, Use, same_leased};
ghost use Rattle.leases.specs.LeaseBooks.Lents.{Lent, ended_where, is_passed, is_place_free, with_begun};
ghost use Rattle.leases.specs.LeaseBooks.OtherShapes.{AreShapedAlike};
ghost use Rattle.leases.specs.LeaseBooks.Ranges.{StandsAt, is_lent};

use std::alloc::AllocError;
use traces::Ring;

/// What keeps the leases of the rows so far. After want of memory it may keep nothing of use.
pub trait LeaseLog {
    /// It keeps what was and is lent, beside a list of leases with which it may compare it.
    ghost holds: { List Lease → Header → List Lent → Self → Type 0 };

    /// The lease of a block begins at a row.
    fn begin_block(&mut self, row: u32, ring: &Ring, position: u64) -> Result<(), AllocError>
        ensures { OnOk result ((list : List Lease) (h : Header) (ts : List Lent) → shape_of h ring.now.id ≡ ring.now.shape → holds list h ts self.old →
            is_place_free h ts (Block ring.now.id position) ≡ true → holds list h (with_begun row ts (Block ring.now.id position ∷ [])) self.new) };

    /// The lease of a Link begins at a row; the Link is crossed on the way to a position.
    fn begin_link(&mut self, row: u32, ring: &Ring, crossing: u64) -> Result<(), AllocError>
        ensures { OnOk result ((list : List Lease) (h : Header) (ts : List Lent) → shape_of h ring.now.id ≡ ring.now.shape → is_crossing ring.now.shape crossing ≡ true → holds list h ts self.old →
            is_place_free h ts (Link ring.now.id crossing) ≡ true → holds list h (with_begun row ts (Link ring.now.id crossing ∷ [])) self.new) };

    /// The lease of a range of bytes begins at a row.
    fn begin_range(&mut self, row: u32, bytes: u32, address: u64) -> Result<(), AllocError>
        ensures { OnOk result ((list : List Lease) (h : Header) (ts : List Lent) (purpose : Use) → holds list h ts self.old →
            holds list h (with_begun row ts (Range bytes address purpose ∷ [])) self.new) };

    /// The lease of a block ends at a row, if it is open.
    fn end_block(&mut self, row: u32, ring: &Ring, position: u64)
        ensures { (list : List Lease) (h : Header) (ts : List Lent) → shape_of h ring.now.id ≡ ring.now.shape → holds list h ts self.old →
            holds list h (map (ended_where (same_leased (Block ring.now.id position)) row) ts) self.new };

    /// The leases of the blocks and Links of a ring that the controller's dequeue pointer passes end at a row, those that are open.
    fn end_passed(&mut self, row: u32, ring: &Ring, from: u64, to: u64)
        ensures { (list : List Lease) (h : Header) (ts : List Lent) → shape_of h ring.now.id ≡ ring.now.shape → from ≤ to → holds list h ts self.old →
            holds list h (map (ended_where (is_passed ring.now.id from to) row) ts) self.new };

    /// The lease of a range of bytes ends at a row; it is open, and stands at an index.
    fn end_range(&mut self, index: usize, row: u32, bytes: u32, address: u64)
        ensures { (list : List Lease) (h : Header) (ts : List Lent) (purpose : Use) → holds list h ts self.old → StandsAt ts (Range bytes address purpose) index →
            is_lent ts (Range bytes address purpose) ≡ true → holds list h (map (ended_where (same_leased (Range bytes address purpose)) row) ts) self.new };

    /// How many leases there are, those that are over among them.
    fn count(&self) -> usize
        ensures { (list : List Lease) (h : Header) (ts : List Lent) → holds list h ts self.now → result ≡ length ts };

    /// With other rings the same is kept, where the ring of each lease that isn't over has the same shape.
    ghost other_rings: { (list : List Lease) (h g : Header) (ts : List Lent) (log : Self) → AreShapedAlike h g ts → holds list h ts log → holds list g ts log };
}
