ghost use Rattle.std.specs.Prelude.{◌≡◌, ℕ, [], true, List, map, slice_get, slice_set, IfOk};
ghost use Rattle.segments.specs.Places.{is_crossing};
ghost use Rattle.traces.specs.declared.header.Header.{Header};
ghost use Rattle.traces.specs.Header.{shape_of};
ghost use Rattle.ownership_rules.specs.OpenLeases.{Block, Link, Range, Use, same_leased};
ghost use Rattle.ownership_rules.specs.Leases.{as_lease, without_end};
ghost use Rattle.leases.specs.LeaseBooks.Endings.{ended_at, is_open_as};
ghost use Rattle.leases.specs.LeaseBooks.Lents.{Lent, ended_where, lease_of};

use crate::book::indexes::IndexTables;
use crate::book::lease_log::LeaseLog;
use crate::book::opening::opening_leases;
use ring_knowledge::Lease;
use std::alloc::{AllocError, Global};
use traces::{Header, Ring};

/// The number of no row.
const WITHOUT_END: u32 = 0xffff_ffff;

/// The kind of a block's lease.
const BLOCK: u32 = 0;

/// The kind of a Link's lease.
const LINK: u32 = 1;

/// The kind of the lease of a range of bytes.
const RANGE: u32 = 2;

/// The leases of the rows so far, and where the open ones stand among them.
#[derive(Drop)]
pub struct LeaseBook {
    /// In their order.
    leases: Vec<Lease>,
    /// By ring and place: the index of the open lease of the block there.
    blocks: IndexTables,
    /// By ring and segment: the index of the open lease of the segment's Link.
    links: IndexTables,
}

impl LeaseBook {
    ghost use Rattle.leases.specs.LeaseBooks.Books.{FollowsLeases, HoldsLents};

    /// The book before the first row: the leases of the event ring's segments stand.
    pub fn new(alloc: Global, header: &Header) -> Result<LeaseBook, AllocError>
        ensures { IfOk result (λ b. (first : ℕ) → FollowsLeases header.now first [] b) }
    {
        Ok(LeaseBook {
            leases: opening_leases(alloc, header)?,
            blocks: IndexTables::new(alloc)?,
            links: IndexTables::new(alloc)?,
        })
    }

    /// The lease of a Link ends at a row, if it is open; the Link is crossed on the way to a position.
    fn end_link(&mut self, row: u32, ring: &Ring, crossing: u64)
        requires { is_crossing ring.now.shape crossing ≡ true }
        ensures { (h : Header) (ts : List Lent) → shape_of h ring.now.id ≡ ring.now.shape → HoldsLents h ts self.old →
            HoldsLents h (map (ended_where (same_leased (Link ring.now.id crossing)) row) ts) self.new }
    {
        let segment = ring.shape.crossing(crossing).unwrap_or(0);
        let index = self.links.get(ring.id, segment);
        end_at(
            &mut self.leases,
            index,
            row,
            link_lease(row, ring.id, crossing),
        );
    }

    /// The leases, in their order.
    pub fn into_leases(self) -> Vec<Lease>
        ensures { (h : Header) (ts : List Lent) → HoldsLents h ts self → result.items ≡ map lease_of ts }
    {
        self.leases
    }
}

impl LeaseLog for LeaseBook {
    ghost use Rattle.leases.specs.LeaseBooks.Books.{HoldsLents};
    ghost use Rattle.leases.specs.LeaseBooks.OtherHeaders.{held_alike};

    ghost holds = { λ list. HoldsLents };

    ghost other_rings = { λ list. held_alike };

    fn begin_block(&mut self, row: u32, ring: &Ring, position: u64) -> Result<(), AllocError> {
        let index = self.leases.len();
        self.leases.push(block_lease(row, ring.id, position))?;
        let place = ring.shape.place(position);
        self.blocks.put(ring.id, place, index)?;
        Ok(())
    }

    fn begin_link(&mut self, row: u32, ring: &Ring, crossing: u64) -> Result<(), AllocError> {
        let index = self.leases.len();
        self.leases.push(link_lease(row, ring.id, crossing))?;
        let segment = ring.shape.crossing(crossing).unwrap_or(0);
        self.links.put(ring.id, segment, index)?;
        Ok(())
    }

    fn begin_range(&mut self, row: u32, bytes: u32, address: u64) -> Result<(), AllocError> {
        self.leases.push(range_lease(row, bytes, address))?;
        Ok(())
    }

    fn end_block(&mut self, row: u32, ring: &Ring, position: u64) {
        let place = ring.shape.place(position);
        let index = self.blocks.get(ring.id, place);
        end_at(
            &mut self.leases,
            index,
            row,
            block_lease(row, ring.id, position),
        );
    }

    fn end_passed(&mut self, row: u32, ring: &Ring, from: u64, to: u64) {
        for number in from..to {
            self.end_block(row, ring, number);
            if ring.shape.crossing(number).is_some() {
                self.end_link(row, ring, number);
            }
        }
    }

    fn end_range(&mut self, index: usize, row: u32, bytes: u32, address: u64) {
        end_at(
            &mut self.leases,
            index,
            row,
            range_lease(row, bytes, address),
        );
    }

    fn count(&self) -> usize {
        self.leases.len()
    }
}

/// The lease of a block that begins at a row.
#[tactic(auto, unfolding(ownership_rules::specs::Leases::as_lease, ownership_rules::specs::Leases::without_end))]
pub fn block_lease(row: u32, ring: u8, position: u64) -> Lease
    ensures { result ≡ as_lease row without_end (Block ring position) }
{
    Lease {
        kind: BLOCK,
        ring: u32::from(ring),
        pos: position,
        from: row,
        to: WITHOUT_END,
    }
}

/// The lease of a Link that begins at a row.
#[tactic(auto, unfolding(ownership_rules::specs::Leases::as_lease, ownership_rules::specs::Leases::without_end))]
pub fn link_lease(row: u32, ring: u8, crossing: u64) -> Lease
    ensures { result ≡ as_lease row without_end (Link ring crossing) }
{
    Lease {
        kind: LINK,
        ring: u32::from(ring),
        pos: crossing.saturating_sub(1),
        from: row,
        to: WITHOUT_END,
    }
}

/// The lease of a range of bytes that begins at a row.
#[tactic(auto, unfolding(ownership_rules::specs::Leases::as_lease, ownership_rules::specs::Leases::without_end))]
pub fn range_lease(row: u32, bytes: u32, address: u64) -> Lease
    ensures { (purpose : Use) → result ≡ as_lease row without_end (Range bytes address purpose) }
{
    Lease {
        kind: RANGE,
        ring: bytes,
        pos: address,
        from: row,
        to: WITHOUT_END,
    }
}

/// The lease at an index ends at a row, if it is open and of the words of another.
#[tactic(auto, using(crate::proofs::LeaseBooks::Ending::at_some, crate::proofs::LeaseBooks::Ending::at_none))]
fn end_at(leases: &mut Vec<Lease>, index: usize, row: u32, sought: Lease)
    ensures { leases.new.items ≡ ended_at sought row index leases.old.items }
{
    let Some(lease) = lease_at(leases.as_slice(), index) else {
        return;
    };
    if is_open_as(sought, lease) {
        set_lease(leases, index, Lease { to: row, ..lease });
    }
}

/// The second lease has no end, and the words of the first.
#[tactic(auto, unfolding(crate::specs::LeaseBooks::Endings::is_open_as, ownership_rules::specs::Leases::without_end))]
fn is_open_as(sought: Lease, lease: Lease) -> bool
    ensures { result ≡ is_open_as sought lease }
{
    lease.to == WITHOUT_END
        && sought.kind == lease.kind
        && sought.ring == lease.ring
        && sought.pos == lease.pos
}

/// The lease at an index.
fn lease_at(leases: &[Lease], index: usize) -> Option<Lease>
    ensures { result ≡ slice_get leases.now index }
{
    leases.get(index).copied()
}

/// Puts a lease in the place of another.
fn set_lease(leases: &mut Vec<Lease>, index: usize, lease: Lease)
    ensures { leases.new.items ≡ slice_set leases.old.items index lease }
{
    if let Some(old) = leases.get_mut(index) {
        *old = lease;
    }
}
