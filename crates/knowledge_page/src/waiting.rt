//! What waits at the end of a trace: TRBs that the controller can't come to, or isn't told of, or of which no event was read; and an Event Ring
//! of which nothing is given back.
ghost use Rattle.std.specs.Prelude.{◌≡◌};
ghost use Rattle.knowledge_page.specs.Waiting.{is_back, is_full};

use crate::leased::pieces_of;
use crate::shown::{Place, Shown};
use crate::standing::Standing;
use crate::waiting_rings::{Lent, add_ring, taker_of};
use commands::{Command, EndpointState};
use event_ring::EventPlace;
use row_history::{last_read, last_register, line_of};
use std::alloc::{AllocError, Global};
use traces::{Register, Row, Trace};
use trb::RingKind;

/// What waits. Rows are named by their lines.
#[derive(Clone, Copy, Debug, PartialEq, Eq)]
pub enum Waiting {
    /// No place of the Event Ring is free since this row read an event.
    EventRingFull {
        row: u32,
        kept: Kept,
    },
    /// TRBs lie behind the Link TRB at this address, which isn't handed over.
    BehindLink {
        group: Group,
        link: u64,
    },
    /// A TRB was submitted and isn't handed over.
    Submitted(Due),
    /// TRBs were handed over, and their doorbell wasn't rung since.
    Unrung(Group),
    /// The completion of a command wasn't read.
    Unfinished {
        position: u64,
        row: u32,
        command: Option<Command>,
    },
    /// TRBs were handed over and their doorbell was rung, and no event was read that gives them back.
    Unreported(Group),
    /// No event was given back, though some were read.
    ErdpUnmoved(Kept),
}

/// Events that were read and that ERDP doesn't give back.
#[derive(Clone, Copy, Debug, PartialEq, Eq)]
pub struct Kept {
    pub events: u64,
    /// The line of the row that wrote ERDP last.
    pub written: u32,
    /// What ERDP is behind them.
    pub address: u64,
}

/// A TRB that this row submitted, and that is to be handed over next.
#[derive(Clone, Copy, Debug, PartialEq, Eq)]
pub struct Due {
    pub ring: u8,
    pub taker: Taker,
    pub position: u64,
    pub row: u32,
    /// The address of its control word, and the Cycle bit that this has to get.
    pub address: u64,
    pub cycle: u8,
    /// How many TRBs behind it are handed over.
    pub behind: u64,
}

/// TRBs of a ring that wait for the same.
#[derive(Clone, Copy, Debug, PartialEq, Eq)]
pub struct Group {
    pub ring: u8,
    pub taker: Taker,
    /// The one that was handed over first, and the line of the row that did so.
    pub position: u64,
    pub row: u32,
    /// How many they are, and whether one of them asks for an event (IOC).
    pub count: u64,
    pub asks: bool,
}

/// Who takes the TRBs of a ring.
#[derive(Clone, Copy, Debug, PartialEq, Eq)]
pub enum Taker {
    /// The controller, of the Command Ring.
    Controller,
    /// An endpoint, by its slot and its index (DCI).
    Endpoint {
        slot: u8,
        endpoint: u8,
        state: EndpointState,
        /// It halted, and its TR Dequeue Pointer wasn't set since.
        must_move: bool,
    },
    /// No endpoint has the ring.
    Nobody,
}

/// The rows of a trace, `first` the line of the first.
#[derive(Clone, Copy)]
pub(crate) struct Past<'a> {
    pub(crate) first: u32,
    pub(crate) rows: &'a [Row],
}

/// What waits at the end of a trace that is shown; nothing is told of another place, nor behind rows that don't leave the controller
/// running.
pub fn left_waiting(
    alloc: Global,
    trace: &Trace,
    shown: &Shown,
) -> Result<Vec<Waiting>, AllocError> {
    let mut found = Vec::new(alloc);
    let registers = &shown.standing.kept.registers;
    let runs = registers.is_started() && !registers.is_stopped() && !registers.halt().is_asked();
    if shown.place != Place::End || !runs {
        return Ok(found);
    }
    let past = Past {
        first: trace.first,
        rows: trace.rows.as_slice(),
    };
    add_rings(alloc, &mut found, &shown.standing, past)?;
    match event_ring_of(&shown.standing, past) {
        Some(full @ Waiting::EventRingFull { .. }) => found.insert(0, full)?,
        Some(unmoved) => found.push(unmoved)?,
        None => {}
    }
    Ok(found)
}

/// What waits of the Command and Transfer Rings: first what isn't handed over or rung for, and then what the controller may be at.
fn add_rings(
    alloc: Global,
    found: &mut Vec<Waiting>,
    standing: &Standing,
    past: Past,
) -> Result<(), AllocError> {
    let pieces = pieces_of(alloc, &standing.leases)?;
    let mut unreported = Vec::new(alloc);
    let rings = standing.header.rings.as_slice();
    for (ring, known) in rings.iter().zip(standing.kept.rings.iter()) {
        if ring.shape.kind() != RingKind::Evt && known.declared_count() > 0 {
            let lent = Lent {
                ring,
                known,
                taker: taker_of(standing, ring),
                pieces: &pieces,
            };
            add_ring(found, &mut unreported, lent, past)?;
        }
    }
    for waiting in &unreported {
        found.push(*waiting)?;
    }
    Ok(())
}

/// What waits of the Event Ring.
fn event_ring_of(standing: &Standing, past: Past) -> Option<Waiting> {
    let Some(events) = &standing.kept.events else {
        return None;
    };
    let row = line_of(past.first, last_read(past.rows)?);
    let written = line_of(past.first, last_register(past.rows, Register::Erdp)?);
    let kept = Kept {
        events: events.reads() - events.dequeue(),
        written,
        address: events.shape().address(events.reads()),
    };
    if is_full(events) {
        Some(Waiting::EventRingFull { row, kept })
    } else if is_back(events) {
        None
    } else {
        Some(Waiting::ErdpUnmoved(kept))
    }
}

/// Whether no place of the Event Ring is free even if every event that was posted was read.
fn is_full(events: &EventPlace) -> bool
    ensures { result ≡ is_full events.now }
{
    let size = u64::from(events.shape().places());
    let reads = events.reads();
    reads < u64::MAX && (reads + 1) % size == events.dequeue() % size
}

/// Whether ERDP has given an event back, or none was read.
fn is_back(events: &EventPlace) -> bool
    ensures { result ≡ is_back events.now }
{
    events.reads() == 0 || events.dequeue() > 0
}
