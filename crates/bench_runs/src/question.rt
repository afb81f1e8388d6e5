//! What a driver asks between its rows.
use bench::Moment;

#[derive(Clone, Copy, Debug, PartialEq, Eq)]
pub(crate) enum Question {
    /// It is about to look at memory that the controller writes.
    Look,
    /// It waits for an event.
    Wait,
    /// It reads USBSTS (xHCI 5.4.2).
    Status,
}

impl Question {
    /// What a line asks, if it asks something.
    pub(crate) fn of(line: &[u8]) -> Option<Question> {
        if line == b"?\n".as_slice() {
            Some(Question::Look)
        } else if line == b"wait\n".as_slice() {
            Some(Question::Wait)
        } else if line == b"usbsts\n".as_slice() {
            Some(Question::Status)
        } else {
            None
        }
    }

    /// Where the controller is asked for steps.
    pub(crate) fn moment(self) -> Moment {
        match self {
            Question::Look => Moment::Look,
            Question::Wait => Moment::Wait,
            Question::Status => Moment::Status,
        }
    }

    /// The line that ends the answer: no event comes to who waits, or HCHalted is 1.
    pub(crate) fn end(self, has_event: bool, is_halted: bool) -> &'static str {
        match self {
            Question::Wait if !has_event => "idle\n",
            Question::Status if is_halted => "halted\n",
            _ => ".\n",
        }
    }
}
