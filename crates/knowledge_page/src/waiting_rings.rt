//! What waits of a Command or Transfer Ring.
ghost use Rattle.std.specs.Prelude.{◌≡◌};
ghost use Rattle.segments.specs.RingView.{RingView};
ghost use Rattle.segments.specs.ShapeValue.{Shape};
ghost use Rattle.ring_knowledge.specs.RingRecords.{FollowsRing};
ghost use Rattle.knowledge_page.specs.Waiting.{missing, needs_bell};

use crate::leased::Piece;
use crate::rings::{Served, served_by};
use crate::standing::Standing;
use crate::waiting::{Due, Group, Past, Taker, Waiting};
use commands::Command;
use ring_knowledge::RingRecord;
use row_history::{last_bell, line_of};
use segments::{RingShape, Spot};
use std::alloc::AllocError;
use traces::{Ring, Row};
use trb::RingKind;

/// What of a ring isn't handed over though it is needed next.
#[derive(Clone, Copy, Debug, PartialEq, Eq)]
pub enum Missing {
    /// The Link TRB before this position, of which the TRB is handed over.
    Link { position: u64 },
    /// The submitted TRB at this position.
    Trb { position: u64 },
}

/// A ring, what is known of it, and what is under lease, of other rings too.
#[derive(Clone, Copy)]
pub(crate) struct Lent<'a> {
    pub(crate) ring: &'a Ring,
    pub(crate) known: &'a RingRecord,
    pub(crate) taker: Taker,
    pub(crate) pieces: &'a [Piece],
}

/// The TRBs of a ring under lease, by what they wait for.
#[derive(Clone, Copy)]
struct Groups {
    /// Behind what isn't handed over.
    behind: Option<Group>,
    unrung: Option<Group>,
    unreported: Option<Group>,
}

/// Who takes the TRBs of a ring.
pub(crate) fn taker_of(standing: &Standing, ring: &Ring) -> Taker {
    if ring.shape.kind() == RingKind::Cmd {
        return Taker::Controller;
    }
    let devices = &standing.kept.devices;
    match served_by(devices, ring.id) {
        Some(Served { slot, endpoint }) => Taker::Endpoint {
            slot,
            endpoint,
            state: devices.endpoint_state(slot, endpoint),
            must_move: devices.must_move(slot, endpoint),
        },
        None => Taker::Nobody,
    }
}

/// What waits of a ring: what isn't handed over or rung for, and apart from that what the controller may be at.
pub(crate) fn add_ring(
    found: &mut Vec<Waiting>,
    unreported: &mut Vec<Waiting>,
    lent: Lent,
    past: Past,
) -> Result<(), AllocError> {
    let rung = line_rung(lent.taker, past);
    let groups = groups_of(lent, rung);
    if let Some(missing) = missing_of(&lent.ring.shape, lent.known) {
        add_missing(found, lent, past, missing, groups.behind)?;
    }
    if let Some(group) = groups.unrung {
        found.push(Waiting::Unrung(group))?;
    }
    if lent.taker == Taker::Controller {
        return add_commands(unreported, lent, rung);
    }
    if let Some(group) = groups.unreported {
        unreported.push(Waiting::Unreported(group))?;
    }
    Ok(())
}

/// What of a ring isn't handed over though it is needed next.
#[tactic(auto, unfolding(segments::specs::Ceiling::is_stop_spot))]
pub fn missing_of(shape: &RingShape, known: &RingRecord) -> Option<Missing>
    ensures { (v : RingView) → FollowsRing shape.now v known.now → result ≡ missing shape.now v }
{
    let position = known.given_count();
    if !known.is_handed_over(shape, position) {
        if position < known.declared_count() as u64 {
            Some(Missing::Trb { position })
        } else {
            None
        }
    } else if known.is_stop_spot(shape, Spot::Data(position)) {
        None
    } else {
        Some(Missing::Link { position })
    }
}

/// That a Link or a TRB isn't handed over, and which TRBs behind it are.
fn add_missing(
    found: &mut Vec<Waiting>,
    lent: Lent,
    past: Past,
    missing: Missing,
    behind: Option<Group>,
) -> Result<(), AllocError> {
    let shape = &lent.ring.shape;
    match missing {
        Missing::Link { position } => {
            if let (Some(group), Some(segment)) = (behind, shape.crossing(position)) {
                found.push(Waiting::BehindLink {
                    group,
                    link: shape.link(segment),
                })?;
            }
        }
        Missing::Trb { position } => {
            if let Some(index) = submitting(past.rows, lent.ring.id, position) {
                found.push(Waiting::Submitted(Due {
                    ring: lent.ring.id,
                    taker: lent.taker,
                    position,
                    row: line_of(past.first, index),
                    address: shape.address(position) | 12,
                    cycle: u8::from(shape.cycle(position)),
                    behind: count_of(behind),
                }))?;
            }
        }
    }
    Ok(())
}

/// How many TRBs there are.
fn count_of(group: Option<Group>) -> u64 {
    match group {
        Some(group) => group.count,
        None => 0,
    }
}

/// The row that submitted the TRB at a position of a ring.
fn submitting(rows: &[Row], of: u8, position: u64) -> Option<usize> {
    let mut behind = 0u64;
    for (index, row) in rows.iter().enumerate() {
        if let Row::Sub { ring, blocks } = row {
            if *ring == of {
                behind = behind.saturating_add(blocks.as_slice().len() as u64);
                if position < behind {
                    return Some(index);
                }
            }
        }
    }
    None
}

/// The TRBs of a ring under lease, by what they wait for; its doorbell was rung last in this row.
fn groups_of(lent: Lent, rung: u32) -> Groups {
    let given = lent.known.given_count();
    let mut groups = Groups {
        behind: None,
        unrung: None,
        unreported: None,
    };
    for piece in lent.pieces {
        if is_of(piece, lent.ring) {
            if piece.position >= given {
                groups.behind = Some(with(groups.behind, lent, piece));
            } else if needs_bell(lent.known, piece.row, rung) {
                groups.unrung = Some(with(groups.unrung, lent, piece));
            } else {
                groups.unreported = Some(with(groups.unreported, lent, piece));
            }
        }
    }
    groups
}

/// It is a TRB of this ring.
fn is_of(piece: &Piece, ring: &Ring) -> bool {
    piece.ring == u32::from(ring.id) && !piece.is_link
}

/// A group with one TRB more.
fn with(group: Option<Group>, lent: Lent, piece: &Piece) -> Group {
    let alone = Group {
        ring: lent.ring.id,
        taker: lent.taker,
        position: piece.position,
        row: piece.row,
        count: 1,
        asks: asks(lent.known, piece.position),
    };
    match group {
        Some(group) => {
            let first = if piece.row < group.row { alone } else { group };
            Group {
                count: group.count.saturating_add(1),
                asks: group.asks || alone.asks,
                ..first
            }
        }
        None => alone,
    }
}

/// Whether a submitted TRB asks for an event at its completion (IOC).
fn asks(known: &RingRecord, position: u64) -> bool {
    match known.declared(position) {
        Some(block) => block.w[3] / 32 % 2 == 1,
        None => false,
    }
}

/// Whether a TRB that a row handed over waits for the doorbell of its ring, which was rung last in the other row, 0 if in none. A row
/// that hands over withdrawn TRBs again may ring it itself.
fn needs_bell(known: &RingRecord, row: u32, rung: u32) -> bool
    ensures { (shape : Shape) (v : RingView) → FollowsRing shape v known.now → result ≡ needs_bell v row rung }
{
    !known.is_open() || rung < row
}

/// The line of the row that last rang the doorbell of a ring; 0 where none did.
fn line_rung(taker: Taker, past: Past) -> u32 {
    let rung = match taker {
        Taker::Controller => last_bell(past.rows, 0, 0),
        Taker::Endpoint { slot, endpoint, .. } => last_bell(past.rows, slot, endpoint),
        Taker::Nobody => None,
    };
    match rung {
        Some(index) => line_of(past.first, index),
        None => 0,
    }
}

/// The commands whose doorbell was rung, in this row last, and whose completion wasn't read.
fn add_commands(found: &mut Vec<Waiting>, lent: Lent, rung: u32) -> Result<(), AllocError> {
    let given = lent.known.given_count();
    for piece in lent.pieces {
        if is_of(piece, lent.ring)
            && piece.position < given
            && !needs_bell(lent.known, piece.row, rung)
        {
            found.push(Waiting::Unfinished {
                position: piece.position,
                row: piece.row,
                command: command_at(lent.known, piece.position),
            })?;
        }
    }
    Ok(())
}

/// The command that is submitted at a position of the Command Ring.
fn command_at(known: &RingRecord, position: u64) -> Option<Command> {
    match known.declared(position) {
        Some(block) => Command::read(&block).ok(),
        None => None,
    }
}
