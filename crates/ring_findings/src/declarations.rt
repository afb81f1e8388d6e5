//! Rows that submit TRBs: no room, and TRBs that make no TD.
use ring_knowledge::RingRecord;
use row_history::Shown::{Id, Line, Name, Nth, Number, Types};
use row_history::{
    Case, Endpoint, endpoint_with, last_bell, line_of, mark_reset, reset_behind, ring_known,
    ring_with,
};
use traces::Ring;
use trb::{Block, BlockFlags, BlockKind, Flags, RingKind};

/// A TD for which the ring has no room.
pub fn ring_full(case: &mut Case, id: u8, count: usize) {
    let count = count as u64;
    case.head("the ring has no room for this TD", &[]);
    let here = if count == 1 { "{} TRB" } else { "{} TRBs" };
    case.here(here, &[Number(count)]);
    let Some((ring, known)) = ring_known(case, id) else {
        return;
    };
    let places = u64::from(ring.shape.places());
    let usable = places.saturating_sub(1);
    case.note(
        "ring {} has {} TRBs beside its Link TRBs, of which one stays free: {} may be in use",
        &[Id(id), Number(places), Number(usable)],
    );
    let (submitted, back) = (known.declared_count() as u64, known.floor_number());
    let used = submitted.saturating_sub(back);
    case.note(
        "{} were submitted, and events gave back the first {}: {} are in use",
        &[Number(submitted), Number(back), Number(used)],
    );
    let mut event = "Transfer Event of the ring";
    if ring.shape.kind() == RingKind::Cmd {
        case.head("the Command Ring has no room for this command", &[]);
        event = "Command Completion Event";
    }
    if count > usable {
        case.help("use a longer ring: the TD never fits into this one", &[]);
    } else {
        case.help(
            "read a {} before you submit, or use a longer ring",
            &[Name(event)],
        );
        note_no_bell(case, ring, known);
    }
}

/// Notes that TRBs are handed over on a full ring whose doorbell didn't ring since: no event gives them back.
fn note_no_bell(case: &mut Case, ring: &Ring, known: &RingRecord) {
    let Some(last) = known.given_count().checked_sub(1) else {
        return;
    };
    if last < known.floor_number() {
        return;
    }
    let control = ring.shape.address(last) | 12;
    let Some(gave) = case.known.last_writer(control) else {
        return;
    };
    if let Some(reset) = reset_behind(case, control) {
        return note_lost(case, ring, reset);
    }
    let Some(Endpoint { slot, endpoint }) = bell_of(case, ring) else {
        case.note(
            "no endpoint has ring {}: no Address Device or Configure Endpoint that names it has completed",
            &[Id(ring.id)],
        );
        return;
    };
    if last_bell(case.before, slot, endpoint).is_some_and(|rang| rang > gave) {
        return;
    }
    case.mark(Some(gave), "hands TRB {} over", &[Number(last)]);
    case.note(
        "its doorbell didn't ring behind row {}: no controller has to come to TRB {}",
        &[Line(line_of(case.first, gave)), Number(last)],
    );
    case.help(
        "ring `db {} {}` behind what you hand over, and read its events before you submit more",
        &[Id(slot), Id(endpoint)],
    );
}

/// Notes that a reset came before the events that give TRBs of a full ring back.
fn note_lost(case: &mut Case, ring: &Ring, reset: usize) {
    mark_reset(case);
    case.note(
        "no event gives back what was handed over before the reset of row {}",
        &[Line(line_of(case.first, reset))],
    );
    case.help(
        "free ring {}, and declare a ring anew by a `ring` line",
        &[Id(ring.id)],
    );
}

/// What the doorbell of a ring names: slot 0 and DCI 0 of the Command Ring's; none where no endpoint has the ring.
fn bell_of(case: &Case, ring: &Ring) -> Option<Endpoint> {
    if ring.shape.kind() == RingKind::Cmd {
        return Some(Endpoint {
            slot: 0,
            endpoint: 0,
        });
    }
    endpoint_with(&case.known.devices, ring.id)
}

/// TRBs that make no TD or command.
pub fn bad_descriptor(case: &mut Case, id: u8, blocks: &[Block]) {
    let kind = match ring_with(case.header.rings.as_slice(), id) {
        Some(ring) => ring.shape.kind(),
        None => RingKind::Xfer,
    };
    no_td(case, kind, blocks);
}

/// TRBs that make no TD or command of such a ring.
pub fn no_td(case: &mut Case, kind: RingKind, blocks: &[Block]) {
    let head = match kind {
        RingKind::Cmd => "these TRBs are no command of a Command Ring",
        RingKind::Evt | RingKind::Xfer => "these TRBs are no TD of a Transfer Ring",
    };
    case.head(head, &[]);
    case.here("{}", &[Types(blocks)]);
    let link = blocks
        .iter()
        .position(|block| block.kind() == BlockKind::Link);
    if let Some(index) = link {
        note_cause(
            case,
            index,
            "the {} TRB: a Link TRB belongs to the ring and to no TD",
            "leave it out of the `sub` row",
        );
    } else if let Some(index) = blocks.iter().position(|block| block.cycle()) {
        note_cause(
            case,
            index,
            "the {} TRB: the Cycle bit is 1; in `sub` rows it is 0, since the lap of the ring gives it",
            "log the words with Cycle bit 0",
        );
    } else if kind == RingKind::Cmd {
        note_no_command(case, blocks);
    } else {
        note_no_transfer(case, blocks);
    }
}

/// Notes what is wrong, by the TRB with this index where the text names one, and what helps.
fn note_cause(case: &mut Case, index: usize, cause: &str, help: &str) {
    let number = (index as u64).saturating_add(1);
    case.note(cause, &[Nth(number)]);
    case.help(help, &[]);
}

/// Notes why TRBs are no command.
fn note_no_command(case: &mut Case, blocks: &[Block]) {
    match blocks {
        [] => note_mixed(case),
        [block] => if block.chain() {
            note_chained(case, 0);
        } else {
            note_cause(case, 0, "the {} TRB: its type is no command's", OTHER_RING);
        },
        _ => note_cause(
            case,
            0,
            "a command is one TRB",
            "log one `sub` row for each command",
        ),
    }
}

/// Notes why TRBs are no TD of a Transfer Ring.
fn note_no_transfer(case: &mut Case, blocks: &[Block]) {
    if begins_with_value(blocks) {
        note_cause(
            case,
            0,
            "the {} TRB: Event Data stands behind the TRBs of the TD whose end its event tells (xHCI 4.11.5.2)",
            "log the whole TD in one `sub` row",
        );
    } else if has_stages(blocks) {
        note_cause(
            case,
            0,
            "a control transfer is two or three TDs: Setup Stage, Data Stage, Status Stage (xHCI 3.2.9)",
            "log one `sub` row for each stage",
        );
    } else if let Some(index) = blocks.iter().position(|block| !block.kind().is_transfer()) {
        note_cause(
            case,
            index,
            "the {} TRB: its type is none of a Transfer Ring's",
            OTHER_RING,
        );
    } else {
        note_chain(case, blocks);
    }
}

/// Whether TRBs begin with Event Data.
fn begins_with_value(blocks: &[Block]) -> bool {
    match blocks {
        [first, ..] => first.kind() == BlockKind::EventData,
        [] => false,
    }
}

/// Whether TRBs begin with a Setup Stage, and another one follows.
fn has_stages(blocks: &[Block]) -> bool {
    match blocks {
        [first, _, ..] => first.kind() == BlockKind::SetupStage,
        _ => false,
    }
}

/// Notes which Chain bit is wrong in a TD, or what else where none is.
fn note_chain(case: &mut Case, blocks: &[Block]) {
    let [front @ .., last] = blocks else {
        return note_mixed(case);
    };
    if let Some(index) = front.iter().position(|block| !block.chain()) {
        note_cause(
            case,
            index,
            "the {} TRB: the Chain bit is 0, and must be 1: it is 1 in all TRBs of a TD but the last",
            "set the Chain bit, or log a `sub` row for each TD",
        );
    } else if last.chain() {
        note_chained(case, front.len());
    } else if front.is_empty() {
        note_setup(case, *last);
    } else {
        note_mixed(case);
    }
}

/// Notes what is wrong with a Setup Stage.
fn note_setup(case: &mut Case, setup: Block) {
    let (cause, help) = if setup.w[2] % 0x20000 != 8 {
        (
            "Setup Stage: the TRB Transfer Length must be 8 (xHCI 6.4.1.2.1)",
            "write the 8 bytes of the request into words 0 and 1, and 8 to bits 16:0 of word 2",
        )
    } else if !setup.flags().contains(BlockFlags::IMMEDIATE) {
        (
            "Setup Stage: Immediate Data (IDT, word 3 bit 6) must be 1 (xHCI 6.4.1.2.1)",
            "write the 8 bytes of the request into words 0 and 1, and set IDT",
        )
    } else {
        (
            "Setup Stage: Transfer Type 1 is reserved: 0 is no Data Stage, 2 OUT, 3 IN (xHCI 6.4.1.2.1)",
            "write the Transfer Type, bits 17:16 of word 3, that the Data Stage has",
        )
    };
    note_cause(case, 0, cause, help);
}

/// Notes that the last TRB is chained to another one.
fn note_chained(case: &mut Case, index: usize) {
    note_cause(
        case,
        index,
        "the {} TRB: the Chain bit is 1, and must be 0: it is 1 in all TRBs of a TD but the last, and in no command",
        "clear the Chain bit, or log the whole TD in one `sub` row",
    );
}

/// Notes that TRBs of these types don't stand together.
fn note_mixed(case: &mut Case) {
    let cause = if case.header.version.has_data() {
        "a Normal TRB, a Data Stage or an Isoch TRB begins a TD, and Normal and Event Data TRBs go on with it; a Status Stage stands alone or before one Event Data TRB, Setup Stage and No Op stand alone"
    } else {
        "Normal TRBs make a TD, and so do a Data Stage with Normal TRBs behind it; Setup Stage, Status Stage and No Op stand alone"
    };
    note_cause(case, 0, cause, "log one `sub` row for each TD");
}

const OTHER_RING: &str = "submit it on a ring of the other kind, or mend its TRB Type";
