//! Writes of USBCMD, which start, halt and reset the controller, and reads of USBSTS, which tells whether it has halted.
use crate::registers::note_wrong_start;
use ring_knowledge::RingRecord;
use row_history::{
    Case, Shown, is_handed_over, last_register, line_of, mark_reset, mark_run, note_running,
    note_unfinished, register_name, ring_known, ring_of_kind, trb_named,
};
use traces::{Halt, Register, Ring, Row};
use trb::RingKind;

/// The registers that are set up before the start.
const SET_UP: [Register; 4] = [
    Register::Crcr,
    Register::Erstsz,
    Register::Erstba,
    Register::Erdp,
];

/// USBCMD with a value that starts, resets or lets go on a controller for which it isn't time, or has it save its state or restore it.
pub(crate) fn note_command(case: &mut Case, value: u64) {
    if case.header.version.has_runs() && value / 256 % 4 != 0 {
        if note_saving(case, value) {
            return;
        }
    }
    let resets = value / 2 % 2 == 1;
    let controller = &case.known.controller;
    let (is_started, has_halted) = (controller.start.is_some(), controller.halt.is_some());
    match (is_started, resets) {
        (false, true) => note_late_reset(case),
        (false, false) => note_early_start(case),
        (true, true) if has_halted => note_gap(case),
        (true, true) => note_early_reset(case),
        (true, false) if has_halted => note_resume(case),
        (true, false) => note_early_resume(case),
    }
}

/// A state that is saved (CSS) or restored (CRS) where it can't be; whether that is the cause.
fn note_saving(case: &mut Case, value: u64) -> bool {
    let halt = case.known.controller.registers.halt();
    let saves = value / 256 % 2 == 1;
    let restores = value / 512 % 2 == 1;
    if case.known.controller.start.is_none() {
        note_unstarted_saving(case);
    } else if !halt.is_done() {
        note_early_saving(case, saves);
    } else if value % 4 != 0 || saves && restores {
        note_two_at_once(case);
    } else if saves {
        note_unfinished_saving(case);
    } else if !halt.is_saved() {
        note_unsaved(case);
    } else {
        return false;
    }
    true
}

/// The state is saved or restored before the start.
fn note_unstarted_saving(case: &mut Case) {
    case.head(
        "the controller is to save or restore its state before the start",
        &[],
    );
    mark_reset(case);
    case.say(
        "CSS (bit 8) and CRS (bit 9) are judged behind Run/Stop 0, of a controller that ran (xHCI 4.23.2)",
    );
    case.not_judged();
    case.advise("begin the trace behind the driver's reset, and log the run whose state is saved");
}

/// The state is saved or restored before the controller was seen to have halted.
fn note_early_saving(case: &mut Case, saves: bool) {
    case.head(
        if saves {
            "the controller is to save its state before it was seen to halt"
        } else {
            "the controller is to restore its state before it was seen to halt"
        },
        &[],
    );
    note_running(case);
    case.say("CSS (bit 8) and CRS (bit 9) may be 1 only where HCHalted (HCH) is 1 (xHCI 5.4.1)");
    case.advise(
        "write Run/Stop 0, and read USBSTS until HCHalted is 1 (`rd usbsts`), before CSS or CRS",
    );
}

/// Of Run/Stop, HCRST, CSS and CRS more than one is 1.
fn note_two_at_once(case: &mut Case) {
    case.head(
        "the controller is to save or restore its state, and something else at once",
        &[],
    );
    case.say(
        "of Run/Stop, HCRST (bit 1), CSS (bit 8) and CRS (bit 9) more than one is 1 (xHCI 4.23.2, 5.4.1)",
    );
    case.advise("write CSS and CRS each by itself, with Run/Stop and HCRST 0");
}

/// A state is restored that wasn't saved in this halt.
fn note_unsaved(case: &mut Case) {
    case.head(
        "the controller is to restore a state that it did not save",
        &[],
    );
    let halt = case.known.controller.halt;
    case.mark(halt, "HCHalted was read as 1 here", &[]);
    case.say("CSS (bit 8) wasn't 1 since the controller halted (xHCI 4.23.2)");
    case.not_judged();
    case.advise(
        "write CSS before CRS; without a saved state reset the controller (HCRST), and set it up anew",
    );
}

/// The state is saved with commands that aren't finished.
fn note_unfinished_saving(case: &mut Case) {
    case.head(
        "the controller is to save its state with commands that aren't finished",
        &[],
    );
    note_unfinished(case);
    case.advise("read the Command Completion Event of each command before Run/Stop 0");
}

/// A reset behind the set-up.
fn note_late_reset(case: &mut Case) {
    for register in Register::ALL {
        let written = case.register_row(register);
        if is_reset_away(register) && written.is_some() {
            case.mark(written, "a reset loses what is set up here", &[]);
            case.note(
                "HCRST is 1, and {} was written before: a reset puts it back (xHCI 5.4.1)",
                &[Shown::Name(register_name(register))],
            );
        }
    }
    case.not_judged();
    case.advise(if case.header.version.has_runs() {
        "reset first, then set up the registers"
    } else {
        "reset first, then set up the registers; each run that is set up anew is a trace of its own"
    });
}

/// The registers that a reset behind their set-up loses.
fn is_reset_away(register: Register) -> bool {
    matches!(
        register,
        Register::Crcr
            | Register::Dcbaap
            | Register::Config
            | Register::Erstsz
            | Register::Erstba
            | Register::Erdp
    )
}

/// A start before the set-up, or with wrong registers.
fn note_early_start(case: &mut Case) {
    let mut complete = true;
    for register in SET_UP {
        if case.register(register).is_none() {
            complete = false;
            note_unwritten(case, register);
        }
    }
    if complete {
        return note_wrong_start(case);
    }
    note_put_back(case);
    case.advise("write CRCR, ERSTSZ, ERDP and ERSTBA before Run/Stop (xHCI 4.2)");
}

/// Notes that a register that the start needs wasn't written since the reset, or CRCR for another Command Ring than the one that is there.
fn note_unwritten(case: &mut Case, register: Register) {
    let written = case.since_reset(last_register(case.before, register));
    if written.is_some() {
        case.mark(written, "CRCR is written here", &[]);
        note_unnamed(case);
    } else {
        let name = Shown::Name(register_name(register));
        case.note("the start comes before {} was written", &[name]);
    }
}

/// Notes that the reset put registers back that the start needs.
fn note_put_back(case: &mut Case) {
    let Some(reset) = case.known.controller.reset else {
        return;
    };
    mark_reset(case);
    case.note(
        "the reset of row {} put back what was written before it (xHCI 5.4.1)",
        &[Shown::Line(line_of(case.first, reset))],
    );
}

/// Notes that CRCR names no Command Ring: it was written before the one came that is there, or none is there.
fn note_unnamed(case: &mut Case) {
    match ring_of_kind(case.header.rings.as_slice(), RingKind::Cmd) {
        Some(ring) => case.note(
            "CRCR wasn't written since ring {}, the Command Ring, came",
            &[Shown::Id(ring.id)],
        ),
        None => case.say("no Command Ring is there"),
    }
}

/// A reset before the controller was seen to have halted.
fn note_early_reset(case: &mut Case) {
    let runs = note_running(case);
    case.head(
        if runs {
            "the controller is reset while it runs"
        } else {
            "the controller is reset before it was seen to halt"
        },
        &[],
    );
    case.say(
        "what a controller does that is reset where HCHalted (HCH) is 0 is undefined (xHCI 5.4.1)",
    );
    case.advise(if runs {
        "write Run/Stop 0, and read USBSTS until HCHalted is 1 (`rd usbsts`), before HCRST"
    } else {
        "read USBSTS until HCHalted is 1, and log that as an `rd usbsts` row, before HCRST"
    });
}

/// Run/Stop 1 before the controller was seen to have halted.
fn note_early_resume(case: &mut Case) {
    case.head(
        "the controller is to run again before it was seen to halt",
        &[],
    );
    note_running(case);
    case.say("Run/Stop may become 1 only where HCHalted (HCH) is 1 (xHCI 5.4.1.1)");
    case.advise(
        "read USBSTS until HCHalted is 1, and log that as an `rd usbsts` row, before Run/Stop 1",
    );
}

/// Run/Stop 1 of a controller that has halted, with a state that isn't restored, with another Command Ring than CRCR names, or with
/// unfinished commands.
fn note_resume(case: &mut Case) {
    if case.known.controller.registers.halt().is_unrestored() {
        return note_unrestored(case);
    }
    if case.register(Register::Crcr).is_none() {
        return note_resume_unnamed(case);
    }
    case.head(
        "the controller is to run again with commands that aren't finished",
        &[],
    );
    note_unfinished(case);
    case.advise("read the Command Completion Event of each command before Run/Stop 0");
}

/// Run/Stop 1 where the state that was saved isn't known to be restored.
fn note_unrestored(case: &mut Case) {
    case.head(
        "the controller is to run again with a state that it saved and has not restored",
        &[],
    );
    let saving = last_saving(case.before);
    if case.known.controller.registers.halt() == Halt::Restoring {
        case.mark(saving, "CRS is 1 here", &[]);
        case.say(
            "USBSTS wasn't read since with RSS (bit 9) and SRE (bit 10) 0 (xHCI 4.23.2, 5.4.2)",
        );
    } else {
        case.mark(saving, "CSS is 1 here", &[]);
        case.say(
            "CRS (bit 9) wasn't 1 since: what lost its power has lost its state (xHCI 4.23.2)",
        );
    }
    case.advise(
        "set the registers up again, write CRS, and read USBSTS until RSS is 0 (`rd usbsts`), before Run/Stop 1; where SRE is 1, reset the controller (HCRST)",
    );
}

/// The last of the rows that has the controller save its state or restore it.
fn last_saving(rows: &[Row]) -> Option<usize> {
    rows.iter().rposition(|row| match row {
        Row::Reg { register, value } => { *register == Register::Usbcmd && value / 256 % 4 != 0 }
        _ => false,
    })
}

/// Run/Stop 1 where CRCR doesn't name the Command Ring that is there.
fn note_resume_unnamed(case: &mut Case) {
    case.head(
        "the controller is to run again with a Command Ring that CRCR does not name",
        &[],
    );
    if let Some(gone) = case.known.gone_last(RingKind::Cmd) {
        case.mark(
            Some(gone.row),
            "this row took ring {}, the Command Ring, away",
            &[Shown::Id(gone.ring)],
        );
    }
    note_unnamed(case);
    case.say("the controller goes on at the Command Ring Pointer that it had (xHCI 5.4.5)");
    match ring_of_kind(case.header.rings.as_slice(), RingKind::Cmd) {
        Some(ring) => case.help(
            "write {} to CRCR before Run/Stop 1",
            &[Shown::Address(ring.shape.address(0) | 1)],
        ),
        None => case.advise(
            "declare the new Command Ring by a `ring ID cmd ..` line, and write CRCR, before Run/Stop 1",
        ),
    }
}

/// A reset with a gap in the Command Ring.
fn note_gap(case: &mut Case) {
    case.head(
        "the controller is reset with a gap in its Command Ring",
        &[],
    );
    if let Some(commands) = ring_of_kind(case.header.rings.as_slice(), RingKind::Cmd) {
        if let Some((ring, known)) = ring_known(case, commands.id) {
            note_missing(case, ring, known);
        }
    }
    case.not_judged();
    case.advise("hand over what is missing before the reset");
}

/// Notes what of the Command Ring isn't handed over, and points at the row that handed over what is behind it.
fn note_missing(case: &mut Case, ring: &Ring, known: &RingRecord) {
    let next = known.given_count();
    let end = known
        .floor_number()
        .saturating_add(u64::from(ring.shape.places()));
    if let Some(behind) = (next..end).find(|position| is_handed_over(ring, known, *position)) {
        case.mark(
            case.known.last_writer(ring.shape.address(behind) | 12),
            "hands TRB {} over",
            &[Shown::Number(behind)],
        );
        let link = ring.shape.crossing(next);
        match link {
            Some(segment) if is_handed_over(ring, known, next) => case.note(
                "the Link TRB at {}, which comes before, isn't handed over",
                &[Shown::Address(ring.shape.link(segment))],
            ),
            _ => case.note(
                "{}, which comes before, isn't handed over",
                &[trb_named(ring, next)],
            ),
        }
    }
}

/// USBSTS with a value that it can't have had.
pub fn impossible_read(case: &mut Case, register: Register, value: u64) {
    let name = Shown::Name(register_name(register));
    case.here("{} = {}", &[name, Shown::Hex(value)]);
    if value % 2 == 1 {
        note_seen_halted(case, value);
    } else if case.known.controller.start.is_none() {
        case.head("USBSTS is read with HCHalted 0 before the start", &[]);
        mark_reset(case);
        case.say("HCHalted (bit 0) is 1 until Run/Stop is 1 (xHCI 4.2, 5.4.2)");
        advise_place(case);
    } else {
        case.head("USBSTS is read with HCHalted 0 in a halt", &[]);
        case.mark(
            case.known.controller.halt,
            "HCHalted was read as 1 here",
            &[],
        );
        case.say("HCHalted (bit 0) stays 1 until Run/Stop is 1 again (xHCI 5.4.2)");
        advise_place(case);
    }
}

/// USBSTS with HCHalted 1 while the controller runs; behind an error it halts by itself.
fn note_seen_halted(case: &mut Case, value: u64) {
    case.head(
        "USBSTS is read with HCHalted 1 while the controller runs",
        &[],
    );
    mark_run(case);
    case.say("HCHalted (bit 0) is 0 as long as Run/Stop is 1 (xHCI 5.4.2)");
    if value / 4 % 2 == 1 || value / 0x1000 % 2 == 1 {
        case.say(
            "Host System Error (bit 2) or Host Controller Error (bit 12) is 1: behind such an error a controller halts by itself (xHCI 5.4.2)",
        );
        case.not_judged();
        case.advise(
            "end the trace before this row: what follows an error of the controller isn't judged",
        );
    } else {
        advise_place(case);
    }
}

/// Says where a read belongs. A controller that runs as a trace begins was started by another driver.
fn advise_place(case: &mut Case) {
    let controller = &case.known.controller;
    case.advise(if controller.start.is_none() && controller.reset.is_none() {
        "log each read of USBSTS where it was made, with the value that came back; begin the trace behind the driver's first reset"
    } else {
        "log each read of USBSTS where it was made, with the value that came back, and each write of Run/Stop before it"
    });
}
