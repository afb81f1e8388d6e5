//! TRBs that were withdrawn, and are the driver's to write until their ring goes on (xHCI 4.6.9).
ghost use Rattle.std.specs.Prelude.{IfOk};
ghost use Rattle.guest_memory.specs.Page.{word_in};
ghost use Rattle.segments.specs.RingView.{RingView};
ghost use Rattle.segments.specs.Shape.{IsShape};
ghost use Rattle.ring_knowledge.specs.RingRecords.{FollowsRing};
ghost use Rattle.knowledge_page.specs.Rings.{AreWithdrawn};

use crate::leased::{Piece, runs_of, write_list};
use crate::standing::Standing;
use guest_memory::SparseMemory;
use ring_knowledge::{Lease, RingRecord};
use segments::RingShape;
use std::alloc::{AllocError, Global};

/// What of a ring is the driver's again, which the controller had.
#[derive(Debug, Drop)]
pub struct Withdrawn {
    /// The TRBs from the floor on, in ascending order.
    pub positions: Vec<u64>,
    /// Whether one of them doesn't stand in memory as the No Op that it was made: then the ring may not go on.
    pub is_left: bool,
}

/// What of a ring was withdrawn and is the driver's.
pub fn withdrawn_of(
    alloc: Global,
    shape: &RingShape,
    known: &RingRecord,
    memory: &SparseMemory,
) -> Result<Withdrawn, AllocError>
    requires { IsShape shape.now }
    ensures { IfOk result (λ withdrawn. (v : RingView) → FollowsRing shape.now v known.now → AreWithdrawn shape.now v (word_in memory.now) withdrawn) }
{
    Ok(Withdrawn {
        positions: known.free_positions(alloc)?,
        is_left: known.is_not_restored(shape, memory),
    })
}

/// A line for the ring with this number, where something of it was withdrawn and is the driver's: with the rows that withdrew it.
pub(crate) fn write_withdrawn(
    alloc: Global,
    page: &mut String,
    standing: &Standing,
    number: usize,
) -> Result<(), AllocError> {
    let Some(ring) = standing.header.rings.as_slice().get(number) else {
        return Ok(());
    };
    let Some(known) = standing.kept.rings.as_slice().get(number) else {
        return Ok(());
    };
    let found = withdrawn_of(alloc, &ring.shape, known, &standing.memory)?;
    if found.positions.is_empty() {
        return Ok(());
    }
    let pieces = pieces_withdrawn(alloc, &standing.leases, ring.id, &found.positions)?;
    let runs = runs_of(alloc, &pieces)?;
    write_list(page, "  withdrawn: ", ring.id, &runs)?;
    page.push_str(if found.is_left {
        ": the driver's until the ring goes on; No Ops are to be written there\n"
    } else {
        ": the driver's until the ring goes on; No Ops stand there\n"
    })
}

/// These TRBs of a ring, each with the row at which its lease ended: the one that withdrew it.
fn pieces_withdrawn(
    alloc: Global,
    leases: &[Lease],
    ring: u8,
    positions: &[u64],
) -> Result<Vec<Piece>, AllocError> {
    let mut pieces = Vec::new(alloc);
    for lease in leases {
        if lease.kind == 0
            && lease.ring == u32::from(ring)
            && positions.binary_search(&lease.pos).is_ok()
        {
            pieces.push(Piece {
                ring: lease.ring,
                is_link: false,
                position: lease.pos,
                row: lease.to,
            })?;
        }
    }
    pieces.sort_unstable();
    Ok(pieces)
}
