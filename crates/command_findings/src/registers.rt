//! Writes of registers.
use crate::runs::note_command;
use ring_knowledge::RingRecord;
use row_history::{
    Beside, Case, Shown, begun_with_0, clash, events_read, given_back, last_bell, last_read,
    line_of, mark_reset, note_no_ring, note_running, register_name, ring_known, ring_of_kind, stop,
};
use segments::{Place, Spot};
use traces::{Register, Ring};
use trb::RingKind;

/// A register that is written at the wrong time, or with a wrong value.
pub fn bad_register(case: &mut Case, register: Register, value: u64) {
    let name = Shown::Name(register_name(register));
    case.head(
        "{} is written at the wrong time or with a wrong value",
        &[name],
    );
    case.here("{} = {}", &[name, Shown::Hex(value)]);
    let has_halted = case.known.controller.halt.is_some();
    match register {
        Register::Usbcmd => note_command(case, value),
        Register::Crcr if value / 2 % 4 != 0 => note_command_stop(case),
        _ if case.known.controller.start.is_none() => note_set_up(case, register, value),
        _ if !case.header.version.has_runs() => note_behind_start(case, register),
        _ if !has_halted => note_in_run(case, register),
        Register::Crcr => note_crcr(case, value),
        _ => note_other_value(case, register),
    }
}

/// A register that is set up with a wrong value, or too early.
fn note_set_up(case: &mut Case, register: Register, value: u64) {
    match register {
        Register::Crcr => note_crcr(case, value),
        Register::Erstsz => note_table_size(case, value),
        Register::Erstba => note_table(case, value / 64 * 64),
        _ => {}
    }
}

/// CRCR with Command Stop or Command Abort.
fn note_command_stop(case: &mut Case) {
    case.mark(
        case.known.controller.start,
        "the controller starts here",
        &[],
    );
    case.say("Command Stop (bit 1) or Command Abort (bit 2) is 1");
    case.not_judged();
    case.advise(
        "end the trace before a stop of the Command Ring; this says nothing against the driver",
    );
}

/// A register that is set up behind the start, of a controller that runs but once.
fn note_behind_start(case: &mut Case, register: Register) {
    case.mark(
        case.known.controller.start,
        "the controller starts here: Run/Stop is 1",
        &[],
    );
    case.note(
        "{} is set before the start (xHCI 4.2)",
        &[Shown::Name(register_name(register))],
    );
    case.advise("write it before Run/Stop; a second run is a trace of its own");
}

/// A register that is set up while the controller may run.
fn note_in_run(case: &mut Case, register: Register) {
    let name = Shown::Name(register_name(register));
    case.head("{} is written while the controller may run", &[name]);
    note_running(case);
    case.note("{} is set before the start (xHCI 4.2)", &[name]);
    case.advise(if register == Register::Crcr {
        "write it before Run/Stop 1, or behind an `rd usbsts` row with HCHalted 1"
    } else {
        "write it before Run/Stop 1; behind an `rd usbsts` row with HCHalted 1 it may be written again with the value that it has"
    });
}

/// A register that is written in a halt with another value than it has.
fn note_other_value(case: &mut Case, register: Register) {
    let name = Shown::Name(register_name(register));
    let Some(value) = case.register(register) else {
        case.head("{} is written in a halt for the first time", &[name]);
        case.note("{} is set before the start (xHCI 4.2)", &[name]);
        return case.advise("write it before the start, or reset the controller first (HCRST)");
    };
    let value = Shown::Hex(value);
    case.head(
        "{} is written in a halt with another value than it has",
        &[name],
    );
    mark_register(case, register);
    case.note("{} is {}, and stays so until a reset", &[name, value]);
    if register == Register::Dcbaap {
        case.say("the controller has the DCBAA, and what its entries name (xHCI 6.1)");
    } else {
        case.not_judged();
    }
    case.help(
        "write {} again, or reset the controller first (HCRST)",
        &[value],
    );
}

/// Points at the last write of a register that counts, where there is one.
pub(crate) fn mark_register(case: &mut Case, register: Register) {
    let name = Shown::Name(register_name(register));
    case.mark(case.register_row(register), "{} is written here", &[name]);
}

/// A start with another ERSTSZ than the Event Ring's, or another ERDP than its first TRB.
pub(crate) fn note_wrong_start(case: &mut Case) {
    let Some(ring) = event_ring(case) else {
        return;
    };
    if note_written_size(case, ring) {
        return;
    }
    let found = case.register(Register::Erdp).unwrap_or(0) / 16 * 16;
    mark_register(case, Register::Erdp);
    case.note(
        "ERDP is {}, and must be {} at the start, the first TRB of the Event Ring (xHCI 4.9.4)",
        &[Shown::Address(found), Shown::Address(ring.shape.address(0))],
    );
    case.advise("write ERDP with the first TRB of the Event Ring before Run/Stop");
}

/// The Event Ring; where none is there, that is noted.
fn event_ring<'a>(case: &mut Case<'a>) -> Option<&'a Ring> {
    let ring = ring_of_kind(case.header.rings.as_slice(), RingKind::Evt);
    if ring.is_none() {
        note_no_ring(case, RingKind::Evt);
        case.advise("declare the Event Ring by a `ring ID evt ..` line");
    }
    ring
}

/// Notes that ERSTSZ was written with another size than the Event Ring's table has. Whether it is so.
fn note_written_size(case: &mut Case, ring: &Ring) -> bool {
    let size = case.register(Register::Erstsz).unwrap_or(0) % 0x10000;
    if size == ring.shape.segments().len() as u64 {
        return false;
    }
    mark_register(case, Register::Erstsz);
    note_size(case, ring, size);
    true
}

/// Notes which size of the table ERSTSZ must say.
fn note_size(case: &mut Case, ring: &Ring, found: u64) {
    let segments = Shown::Number(ring.shape.segments().len() as u64);
    case.note(
        "its size is {}, and must be {}, the number of segments of ring {}, the Event Ring",
        &[Shown::Number(found), segments, Shown::Id(ring.id)],
    );
    case.help("write {} to ERSTSZ", &[segments]);
}

/// CRCR with another pointer or cycle state than the Command Ring's, or of one that was used.
fn note_crcr(case: &mut Case, value: u64) {
    let Some(ring) = ring_of_kind(case.header.rings.as_slice(), RingKind::Cmd) else {
        note_no_ring(case, RingKind::Cmd);
        case.advise("declare the Command Ring by a `ring ID cmd ..` line");
        return;
    };
    match ring_known(case, ring.id) {
        Some((ring, known)) if known.is_open() || known.ceiling() > 0 => {
            note_used(case, ring, known, value);
        }
        _ => note_beginning(case, ring, value),
    }
}

/// CRCR of a Command Ring whose doorbell was rung, or that was there at a reset.
fn note_used(case: &mut Case, ring: &Ring, known: &RingRecord, value: u64) {
    let id = Shown::Id(ring.id);
    case.head("CRCR names a Command Ring that was used before", &[]);
    if case.known.controller.start.is_some() {
        note_rung(case, ring, known);
    } else {
        mark_reset(case);
        case.note(
            "ring {} was there at the reset, behind which the controller has no place on it",
            &[id],
        );
    }
    note_place(case, ring, known, value);
    case.help(
        "let ring {} go by a `free` row, and declare a Command Ring anew by a `ring ID cmd ..` line, before CRCR",
        &[id],
    );
}

/// Notes where a Command Ring stands whose doorbell was rung, and points at that.
fn note_rung(case: &mut Case, ring: &Ring, known: &RingRecord) {
    case.mark(
        last_bell(case.before, 0, 0),
        "the doorbell of the Command Ring is rung here",
        &[],
    );
    let next = known.floor_number();
    let address = Shown::Address(ring.shape.address(next));
    case.note(
        "ring {} was started by its doorbell; the next command is TRB {}, at {}",
        &[Shown::Id(ring.id), Shown::Number(next), address],
    );
}

/// Notes what a controller does that begins where CRCR says, on a Command Ring that was used.
fn note_place(case: &mut Case, ring: &Ring, known: &RingRecord, value: u64) {
    let (pointer, cycle) = (value / 64 * 64, value % 2);
    if !stands_at(ring, known, pointer, cycle == 1) {
        case.note(
            "from {} on, with Ring Cycle State {}, a controller takes what stands there from before, or nothing",
            &[Shown::Address(pointer), Shown::Number(cycle)],
        );
    } else if case.unfinished.is_empty() {
        case.not_judged();
    } else {
        case.say(
            "the controller may have taken that command before it halted, and takes it again from there",
        );
    }
}

/// Whether a Command Ring stands at an address, with this cycle state.
fn stands_at(ring: &Ring, known: &RingRecord, address: u64, cycle: bool) -> bool {
    match known.floor() {
        Spot::Data(next) => ring.shape.address(next) == address && ring.shape.cycle(next) == cycle,
        Spot::Link(_) => false,
    }
}

/// CRCR with another pointer than the first TRB of a Command Ring, or with another cycle state.
fn note_beginning(case: &mut Case, ring: &Ring, value: u64) {
    let (found, base) = (value / 64 * 64, ring.shape.address(0));
    if found != base {
        case.note(
            "its pointer is {}, and must be {}, where ring {}, the Command Ring, begins",
            &[
                Shown::Address(found),
                Shown::Address(base),
                Shown::Id(ring.id),
            ],
        );
    }
    if value % 2 == 0 {
        case.say(
            "Ring Cycle State (bit 0) is 0, and must be 1: the rings of a trace begin with Cycle bit 1",
        );
        if found == base {
            case.say(begun_with_0(case, ring));
        }
    }
    case.help("write {} to CRCR", &[Shown::Address(base | 1)]);
}

/// ERSTSZ twice, or with another size than the Event Ring's table.
fn note_table_size(case: &mut Case, value: u64) {
    if case.register(Register::Erstsz).is_some() {
        mark_register(case, Register::Erstsz);
        case.say("`xtrace 1` and `xtrace 2` have it written once");
        case.not_judged();
        case.advise("write it once, or record `xtrace 3`, where its last value counts");
    } else if let Some(ring) = event_ring(case) {
        note_size(case, ring, value % 0x10000);
    }
}

/// ERSTBA twice, before ERSTSZ, or where no table of the Event Ring lies.
fn note_table(case: &mut Case, base: u64) {
    if case.register(Register::Erstba).is_some() {
        mark_register(case, Register::Erstba);
        let (note, help) = if case.header.version.has_runs() {
            (
                "the controller has the table from the first write on (xHCI 4.9.4), until a reset",
                "write ERSTBA once before each start",
            )
        } else {
            (
                "the controller has the table from the first write on (xHCI 4.9.4), and a trace has one table",
                "write ERSTBA once in a trace",
            )
        };
        case.say(note);
        case.not_judged();
        case.advise(help);
    } else if case.register(Register::Erstsz).is_none() {
        case.say("ERSTSZ wasn't written yet");
        case.advise("write ERSTSZ first (xHCI 5.5.2.3.2)");
    } else if let Some(ring) = event_ring(case) {
        if !note_written_size(case, ring) {
            note_entries(case, ring, base);
        }
    }
}

/// Which entry of the table isn't as it must be, or where the table may not lie.
fn note_entries(case: &mut Case, ring: &Ring, base: u64) {
    let segments = ring.shape.segments();
    let bytes = (segments.len() as u64).saturating_mul(16);
    if let Some(why) = clash(case, base, bytes, Beside::Devices) {
        case.note(
            "the Event Ring Segment Table, {} bytes at {}, {}",
            &[
                Shown::Number(bytes),
                Shown::Address(base),
                Shown::NoArea(why),
            ],
        );
        case.advise("put the table into memory of its own");
        return;
    }
    for (index, segment) in segments.iter().enumerate() {
        let at = base.saturating_add((index as u64).saturating_mul(16));
        let low = u64::from(case.known.word(at));
        let found = u64::from(case.known.word(at.saturating_add(4))) << 32 | low;
        let size = case.known.word(at.saturating_add(8)) % 0x10000;
        if found / 64 * 64 != segment.base || size != u32::from(segment.count) {
            case.note(
                "entry {} at {} says {} with {} TRBs, and must say {} with {}, a segment of the `evt` ring",
                &[
                    Shown::Number(index as u64),
                    Shown::Address(at),
                    Shown::Address(found),
                    Shown::Number(u64::from(size)),
                    Shown::Address(segment.base),
                    Shown::Number(u64::from(segment.count)),
                ],
            );
        }
    }
    case.advise("write the table's words before ERSTBA, and log them as `w` rows");
}

/// ERDP past what was read, or back to what it gave back.
pub fn bad_erdp(case: &mut Case, value: u64) {
    let found = value / 16 * 16;
    case.head("ERDP names an event that the driver has not reached", &[]);
    case.here("ERDP = {}", &[Shown::Hex(found)]);
    if let Some(ring) = event_ring(case) {
        match event_behind(case, ring, found) {
            Some(number) => back_erdp(case, ring, number),
            None => ahead_erdp(case, ring, found),
        }
    }
}

/// The number, from 1, of the event that ERDP gave back last at an address, where that is nearer than the events that aren't read yet.
fn event_behind(case: &Case, ring: &Ring, address: u64) -> Option<u64> {
    let Some(Place::Data { place, .. }) = ring.shape.place_at(address) else {
        return None;
    };
    let (places, place) = (u64::from(ring.shape.places()), u64::from(place));
    let (back, next) = (given_back(case, ring), events_read(case));
    let last = back.checked_sub(1)?;
    let beyond = last.checked_sub(place)? % places;
    let ahead = (place + places).saturating_sub(next % places) % places;
    if beyond < ahead {
        Some(back - beyond)
    } else {
        None
    }
}

/// ERDP back at an event that it gave back.
fn back_erdp(case: &mut Case, ring: &Ring, number: u64) {
    case.head("ERDP goes back to an event that it gave back before", &[]);
    mark_register(case, Register::Erdp);
    case.note(
        "that is the place of event {}, which was read and given back",
        &[Shown::Number(number)],
    );
    let stands = ring.shape.address(given_back(case, ring));
    let next = ring.shape.address(events_read(case));
    case.note(
        "ERDP stands at {}, and may go up to {}, the event that is read next",
        &[Shown::Address(stands), Shown::Address(next)],
    );
    case.advise(
        "write the address of the next event that you will read: ERDP goes forward alone (xHCI 4.9.4)",
    );
}

/// ERDP past what was read, or at no event's place.
fn ahead_erdp(case: &mut Case, ring: &Ring, found: u64) {
    let last = case.since_reset(last_read(case.before));
    case.mark(last, "the last event that was read", &[]);
    if ring.shape.place_at(found).is_none() {
        case.note("{} is no TRB of the Event Ring", &[Shown::Address(found)]);
    }
    let count = events_read(case);
    case.note(
        "events read so far: {}; ERDP may go up to {}, the event that is read next",
        &[
            Shown::Number(count),
            Shown::Address(ring.shape.address(count)),
        ],
    );
    case.advise(
        "write the address of the next event that you will read, after you read those before it",
    );
}

/// A row behind the controller's stop.
pub fn after_stop(case: &mut Case) {
    case.head("the trace goes on behind the stop", &[]);
    case.here("not judged", &[]);
    if let Some(index) = stop(case.before) {
        case.mark(Some(index), "the controller stops here", &[]);
        let line = line_of(case.first, index);
        case.note(
            "Run/Stop is 0 or HCRST is 1 from row {} on",
            &[Shown::Line(line)],
        );
    }
    case.not_judged();
    case.advise("begin a new trace with the next run: a file for each");
}
