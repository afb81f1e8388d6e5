ghost use Rattle.std.specs.Prelude.{◌≡◌, ◌≢◌, ℕ, [], true, false, List, Some, map, IfOk};
ghost use Rattle.segments.specs.Places.{link_crossed};
ghost use Rattle.traces.specs.declared.header.Header.{Header as HeaderValue};
ghost use Rattle.traces.specs.Header.{shape_of};
ghost use Rattle.ring_knowledge.specs.declared.lease.Lease.{Lease as LeaseValue};
ghost use Rattle.ownership_rules.specs.OpenLeases.{Link, same_leased};
ghost use Rattle.leases.specs.LeaseBooks.Lents.{Lent, ended_where, lease_of, lents};

use crate::book::{IndexTables, LeaseLog, block_lease, link_lease, opening_leases, range_lease};
use crate::log::followed::FollowedList;
use ring_knowledge::Lease;
use std::alloc::{AllocError, Global};
use traces::{Header, Ring};

/// Follows the leases of a certificate, row by row, without building a list.
#[derive(Drop)]
pub struct CertificateLog<'a> {
    list: FollowedList<'a>,
    /// By ring and place: one more than the index of the open lease of the block there; 0: there is none.
    blocks: IndexTables,
    /// By ring and segment: the same of the open lease of the segment's Link.
    links: IndexTables,
}

impl<'a> CertificateLog<'a> {
    ghost use Rattle.leases.specs.CertificateLogs.Logs.{FollowsCertificate};

    /// The log before the first row: the leases of the event ring's segments have begun.
    pub fn new(
        alloc: Global,
        header: &Header,
        leases: &'a [Lease],
    ) -> Result<CertificateLog<'a>, AllocError>
        ensures { IfOk result (λ b. (first : ℕ) → FollowsCertificate leases.now header.now (lents header.now first []) b) }
    {
        let opening = opening_leases(alloc, header)?;
        let mut list = FollowedList::new(leases);
        for lease in opening.as_slice() {
            list.begin(*lease)?;
        }
        Ok(CertificateLog {
            list,
            blocks: IndexTables::new(alloc)?,
            links: IndexTables::new(alloc)?,
        })
    }

    /// The list that it follows is that of what was and is lent.
    pub fn is_whole(&self) -> bool
        ensures yes { (list : List LeaseValue) (h : HeaderValue) (ts : List Lent) → FollowsCertificate list h ts self.now → result ≡ true → list ≡ map lease_of ts }
        ensures no { (list : List LeaseValue) (h : HeaderValue) (ts : List Lent) → FollowsCertificate list h ts self.now → result ≡ false → list ≢ map lease_of ts }
    {
        self.list.is_whole()
    }

    /// The lease of a segment's Link ends at a row, if it is open; the Link is crossed on the way to a position.
    fn end_link(&mut self, row: u32, ring: &Ring, crossing: u64, segment: u32)
        requires { link_crossed ring.now.shape crossing ≡ Some segment }
        ensures { (list : List LeaseValue) (h : HeaderValue) (ts : List Lent) → shape_of h ring.now.id ≡ ring.now.shape → FollowsCertificate list h ts self.old →
            FollowsCertificate list h (map (ended_where (same_leased (Link ring.now.id crossing)) row) ts) self.new }
    {
        let number = self.links.get(ring.id, segment);
        let lease = link_lease(row, ring.id, crossing);
        if number > 0 && self.list.end(number - 1, row, lease) {
            self.links.clear(ring.id, segment);
        }
    }
}

impl LeaseLog for CertificateLog<'_> {
    ghost use Rattle.leases.specs.CertificateLogs.Logs.{FollowsCertificate};
    ghost use Rattle.leases.specs.CertificateLogs.OtherHeaders.{followed_alike};

    ghost holds = { FollowsCertificate };

    ghost other_rings = { followed_alike };

    #[inline(always)]
    fn begin_block(&mut self, row: u32, ring: &Ring, position: u64) -> Result<(), AllocError> {
        self.list.begin(block_lease(row, ring.id, position))?;
        let place = ring.shape.place(position);
        self.blocks.put(ring.id, place, self.list.begun)?;
        Ok(())
    }

    #[inline(always)]
    fn begin_link(&mut self, row: u32, ring: &Ring, crossing: u64) -> Result<(), AllocError> {
        self.list.begin(link_lease(row, ring.id, crossing))?;
        let segment = ring.shape.crossing(crossing).unwrap_or(0);
        self.links.put(ring.id, segment, self.list.begun)?;
        Ok(())
    }

    fn begin_range(&mut self, row: u32, bytes: u32, address: u64) -> Result<(), AllocError> {
        self.list.begin(range_lease(row, bytes, address))?;
        Ok(())
    }

    fn end_block(&mut self, row: u32, ring: &Ring, position: u64) {
        let place = ring.shape.place(position);
        let number = self.blocks.get(ring.id, place);
        let lease = block_lease(row, ring.id, position);
        if number > 0 && self.list.end(number - 1, row, lease) {
            self.blocks.clear(ring.id, place);
        }
    }

    #[inline(always)]
    fn end_passed(&mut self, row: u32, ring: &Ring, from: u64, to: u64) {
        for number in from..to {
            self.end_block(row, ring, number);
            if let Some(segment) = ring.shape.crossing(number) {
                self.end_link(row, ring, number, segment);
            }
        }
    }

    fn end_range(&mut self, index: usize, row: u32, bytes: u32, address: u64) {
        self.list.end(index, row, range_lease(row, bytes, address));
    }

    fn count(&self) -> usize {
        self.list.begun
    }
}
