//! What waits, in words.
use crate::waiting::{Due, Group, Kept, Taker, Waiting};
use commands::{Command, EndpointState};
use row_history::{command_name, endpoint_state_name};
use std::alloc::{AllocError, Global};

/// What waits, a line for each: this stands before it.
pub fn waiting_lines(alloc: Global, head: &str, waiting: &[Waiting]) -> Result<String, AllocError> {
    let mut lines = String::new(alloc);
    for one in waiting {
        lines.push_str(head)?;
        write_waiting(&mut lines, one)?;
        lines.push_str("\n")?;
    }
    Ok(lines)
}

fn write_waiting(line: &mut String, waiting: &Waiting) -> Result<(), AllocError> {
    match *waiting {
        Waiting::EventRingFull { row, kept } => {
            write!(line, "the Event Ring is full since row {row}: ")?;
            write_kept(line, kept)
        }
        Waiting::BehindLink { group, link } => {
            write_group(line, &group)?;
            write!(
                line,
                ": not reached, since the Link TRB before it, at {link:016x}, isn't handed over"
            )
        }
        Waiting::Submitted(due) => write_due(line, &due),
        Waiting::Unrung(group) => write_unrung(line, &group),
        Waiting::Unfinished {
            position,
            row,
            command,
        } => write_unfinished(line, position, row, command),
        Waiting::Unreported(group) => {
            write_group(line, &group)?;
            line.push_str(if group.asks {
                ": the doorbell was rung, and no Transfer Event was read that gives all back"
            } else {
                ": the doorbell was rung, and no Transfer Event was read that gives all back; none of them asks for one (IOC)"
            })
        }
        Waiting::ErdpUnmoved(kept) => write_kept(line, kept),
    }
}

/// A TRB that isn't handed over, and what does that.
fn write_due(line: &mut String, due: &Due) -> Result<(), AllocError> {
    let Due {
        ring,
        taker,
        position,
        row,
        address,
        cycle,
        behind,
    } = *due;
    write!(line, "TRB {position} of ")?;
    write_ring(line, ring, taker)?;
    write!(
        line,
        ", submitted in row {row}: not handed over, since its word 3, at {address:016x}, is still to be written with Cycle bit {cycle}"
    )?;
    match behind {
        0 => Ok(()),
        1 => line.push_str("; 1 TRB behind it is handed over"),
        _ => write!(line, "; {behind} TRBs behind it are handed over"),
    }
}

/// Events that ERDP doesn't give back, and what ERDP is behind them.
fn write_kept(line: &mut String, kept: Kept) -> Result<(), AllocError> {
    let Kept {
        events,
        written,
        address,
    } = kept;
    let (were, them) = if events == 1 {
        ("event was", "it")
    } else {
        ("events were", "them")
    };
    write!(
        line,
        "{events} {were} read that ERDP, last written in row {written}, doesn't give back; ERDP behind {them} is {address:016x}"
    )
}

/// TRBs that wait for the same: the first of them, and how many there are.
fn write_group(line: &mut String, group: &Group) -> Result<(), AllocError> {
    let Group {
        ring,
        taker,
        position,
        row,
        count,
        ..
    } = *group;
    write!(line, "TRB {position} of ")?;
    write_ring(line, ring, taker)?;
    write!(line, ", handed over in row {row}")?;
    match count {
        1 => Ok(()),
        2 => line.push_str(", and 1 more"),
        _ => {
            let more = count.saturating_sub(1);
            write!(line, ", and {more} more")
        }
    }
}

/// A ring, and whose it is.
fn write_ring(line: &mut String, ring: u8, taker: Taker) -> Result<(), AllocError> {
    match taker {
        Taker::Controller => line.push_str("the Command Ring"),
        Taker::Endpoint { slot, endpoint, .. } => write!(
            line,
            "ring {ring:02x} (slot {slot}, DCI {endpoint})"
        ),
        Taker::Nobody => write!(line, "ring {ring:02x}"),
    }
}

/// TRBs whose doorbell wasn't rung since, and how their ring goes on.
fn write_unrung(line: &mut String, group: &Group) -> Result<(), AllocError> {
    write_group(line, group)?;
    match group.taker {
        Taker::Controller => line.push_str(": the doorbell wasn't rung since (`db 00 00`)"),
        Taker::Endpoint {
            slot,
            endpoint,
            state,
            must_move,
        } => {
            write_need(line, state, must_move)?;
            write!(line, " (`db {slot:02x} {endpoint:02x}`)")
        }
        Taker::Nobody => line.push_str(": no endpoint has the ring"),
    }
}

/// How an endpoint goes on.
fn write_need(line: &mut String, state: EndpointState, must_move: bool) -> Result<(), AllocError> {
    let name = endpoint_state_name(state);
    match state {
        EndpointState::Running | EndpointState::Disabled => {
            line.push_str(": the doorbell wasn't rung since")
        }
        EndpointState::Halted => write!(
            line,
            ": the endpoint is {name}, and goes on by Reset Endpoint, Set TR Dequeue Pointer and the doorbell"
        ),
        EndpointState::Stopped if !must_move => write!(
            line,
            ": the endpoint is {name}, and goes on by the doorbell"
        ),
        EndpointState::Stopped | EndpointState::Error => write!(
            line,
            ": the endpoint is {name}, and goes on by Set TR Dequeue Pointer and the doorbell"
        ),
    }
}

/// A command whose completion wasn't read.
fn write_unfinished(
    line: &mut String,
    position: u64,
    row: u32,
    command: Option<Command>,
) -> Result<(), AllocError> {
    write!(line, "TRB {position} of the Command Ring")?;
    if let Some(command) = command {
        let name = command_name(command);
        write!(line, ", {name}")?;
        if let Some(slot) = command.slot() {
            write!(line, " of slot {slot}")?;
        }
    }
    write!(
        line,
        ", handed over in row {row}: the doorbell was rung, and no Command Completion Event was read"
    )
}
