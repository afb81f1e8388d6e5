//! Whether the controller runs, and that a ring of its own isn't there, in words.
use crate::finding::{Case, Shown, line_of};
use trb::RingKind;

/// Points at the row since which the controller runs.
pub fn mark_run(case: &mut Case) {
    let controller = &case.known.controller;
    let run = controller.run;
    let label = if run == controller.start {
        "the controller starts here: Run/Stop is 1"
    } else {
        "the controller goes on here: Run/Stop is 1"
    };
    case.mark(run, label, &[]);
}

/// Points at the row by which Run/Stop became 0.
pub fn mark_stop(case: &mut Case) {
    case.mark(case.known.controller.stop, "Run/Stop becomes 0 here", &[]);
}

/// Points at the last reset.
pub fn mark_reset(case: &mut Case) {
    case.mark(
        case.known.controller.reset,
        "the controller is reset here: HCRST is 1",
        &[],
    );
}

/// Notes that the controller runs, or is to halt and wasn't seen to have halted, and points at the row by which it does. Whether
/// Run/Stop is 1.
pub fn note_running(case: &mut Case) -> bool {
    match case.known.controller.stop {
        Some(stop) => {
            mark_stop(case);
            case.note(
                "no `rd usbsts` row behind row {} shows HCHalted 1: the controller may still run",
                &[Shown::Line(line_of(case.first, stop))],
            );
            false
        }
        None => {
            mark_run(case);
            true
        }
    }
}

/// Notes that no Command Ring, or no Event Ring, is there, and points at the row that took the last one away.
pub fn note_no_ring(case: &mut Case, kind: RingKind) {
    let Some(gone) = case.known.gone_last(kind) else {
        return case.note("the header has no `{}` ring", &[Shown::Name(kind.name())]);
    };
    let name = match kind {
        RingKind::Cmd => "Command Ring",
        RingKind::Evt => "Event Ring",
        RingKind::Xfer => "Transfer Ring",
    };
    let line = Shown::Line(line_of(case.first, gone.row));
    case.mark(Some(gone.row), "this row took the ring away", &[]);
    case.note(
        "no {} is there: ring {} went with row {}",
        &[Shown::Name(name), Shown::Id(gone.ring), line],
    );
}
