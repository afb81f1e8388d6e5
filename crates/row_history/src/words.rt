//! The rules, and the types of TRBs, in the standard's words.
use commands::{Command, EndpointState, SlotState};
use ownership_rules::Refusal;
use std::fmt;
use traces::{Register, Ring};
use trb::{BlockKind, RingKind};

/// That a row breaks a rule of the profile alone.
pub const NOT_JUDGED: &str = "not judged: xHCI allows this, the profile doesn't";

/// The number of a TRB among those of a row or a TD, from 1 on.
#[derive(Clone, Copy)]
pub struct Ordinal(pub u64);

impl fmt::Display for Ordinal {
    fn fmt<W: fmt::Write>(&self, f: &mut fmt::Formatter<W>) -> fmt::Result {
        let number = self.0;
        let ending = match (number % 100, number % 10) {
            (11..=13, _) => "th",
            (_, 1) => "st",
            (_, 2) => "nd",
            (_, 3) => "rd",
            _ => "th",
        };
        write!(f, "{number}{ending}")
    }
}

/// What is wrong with a row that breaks this rule.
pub fn general_head(refusal: Refusal) -> &'static str {
    match refusal {
        Refusal::WriteToOwned => "write to memory that the controller owns",
        Refusal::NotAsSubmitted =>
            "the TRB handed to the controller is not the one that was submitted",
        Refusal::NotDeclared => "a TRB goes to the controller that was never submitted",
        Refusal::NotWhole =>
            "the first TRB of a TD goes to the controller before the rest of the TD",
        Refusal::LinkFault => "a Link TRB is handed over that the ring must not have",
        Refusal::RingFull => "the ring has no room for this TD",
        Refusal::BadDescriptor => "these TRBs are no TD of the ring",
        Refusal::BadRegister => "a register is written at the wrong time or with a wrong value",
        Refusal::BadDoorbell => "a doorbell that may not ring now",
        Refusal::BadCommand => "a command that its slot, endpoint or Input Context does not allow",
        Refusal::Busy => "a second command for a slot or a ring whose first is unfinished",
        Refusal::ImpossibleEvent => "no controller of the model can have posted this event here",
        Refusal::BadErdp => "ERDP names an event that the driver has not reached",
        Refusal::NotInProfile => "not in the checker's profile",
        Refusal::AfterStop => "the trace goes on behind the stop",
        Refusal::BadMove => "a ring is bound or moved to where it may not stand",
        Refusal::BadWithdraw => "a TD is withdrawn that may not be",
        Refusal::NotRestored => "a ring goes on before its withdrawn TDs are No Ops",
        Refusal::BadFree => "a ring is freed that is not the driver's to free",
        Refusal::BadRing => "a ring comes in memory that is not free for it",
        Refusal::ImpossibleRead => "USBSTS is read with a value that it can't have",
    }
}

/// What a row did that breaks this rule.
pub fn why_refused(refusal: Refusal) -> &'static str {
    match refusal {
        Refusal::WriteToOwned => "only reading the event that ends its lease gives it back",
        Refusal::NotAsSubmitted =>
            "its words in memory aren't those of its `sub` row, with the Cycle bit of this lap",
        Refusal::NotDeclared =>
            "no `sub` row has it: log a `sub` row with the whole TD before its first write",
        Refusal::NotWhole =>
            "all its other TRBs, and the Link TRBs between them, are handed over first, and the first TRB last (xHCI 4.9.2.2)",
        Refusal::LinkFault =>
            "it has type 6, leads to the next segment, and has Toggle Cycle exactly in the last segment",
        Refusal::RingFull => "one TRB stays free, and TRBs come back only by events that were read",
        Refusal::BadDescriptor =>
            "a TD has one of the forms of xHCI 3.2.8 to 3.2.11, 4.11.2 and 6.4.1",
        Refusal::BadRegister =>
            "it is written before the start, with the values that the header's rings have",
        Refusal::BadDoorbell =>
            "it rings before the start, or for an endpoint that isn't Running or Stopped, that halted and whose TR Dequeue Pointer wasn't set since, or that an unfinished command changes",
        Refusal::BadCommand =>
            "the states of xHCI 4.5.3 and 4.8.3, the flags of the Input Context, the DCBAA entry and where these lie are looked at",
        Refusal::Busy =>
            "wait for its Command Completion Event; xHCI allows to queue both, the profile doesn't",
        Refusal::ImpossibleEvent =>
            "an impossible event says that a row is missing or changed, that the driver read a stale event, or that the controller breaks the standard: look at the hook for events first",
        Refusal::BadErdp => "ERDP goes up to the event that is read next",
        Refusal::NotInProfile => "not judged: xHCI allows this, the profile doesn't",
        Refusal::AfterStop => "a trace is one run, from the set-up to the stop",
        Refusal::BadMove =>
            "Set TR Dequeue Pointer names the beginning of a TD, or the end of all, that the controller cannot have passed, with all before it handed over; an endpoint gets a ring that no other had, at its first TRB, with DCS 1",
        Refusal::BadWithdraw =>
            "an endpoint that has the ring is Stopped, no unfinished command touches it, and the TD is there whole",
        Refusal::NotRestored =>
            "a withdrawn TRB that was handed over stands as a No Op, words 0 to 2 being 0 and word 3 00002000 with its Cycle bit, before the doorbell or the Set TR Dequeue Pointer",
        Refusal::BadFree =>
            "a Transfer Ring goes once no endpoint has it, and no unfinished command gives it to one",
        Refusal::BadRing =>
            "its ID is new, its segments touch no ring and no memory that the controller has or wrote last, and no control word shows Cycle bit 1",
        Refusal::ImpossibleRead =>
            "HCHalted is 1 before the start, 0 from there on, and 1 again behind Run/Stop 0 (xHCI 5.4.2)",
    }
}

/// The name of a register.
pub fn register_name(register: Register) -> &'static str {
    match register {
        Register::Usbcmd => "USBCMD",
        Register::Usbsts => "USBSTS",
        Register::Dnctrl => "DNCTRL",
        Register::Crcr => "CRCR",
        Register::Dcbaap => "DCBAAP",
        Register::Config => "CONFIG",
        Register::Iman => "IMAN",
        Register::Imod => "IMOD",
        Register::Erstsz => "ERSTSZ",
        Register::Erstba => "ERSTBA",
        Register::Erdp => "ERDP",
    }
}

/// The name of a type of TRBs (xHCI table 6-91).
pub fn type_name(kind: BlockKind) -> &'static str {
    match kind {
        BlockKind::Normal => "Normal",
        BlockKind::SetupStage => "Setup Stage",
        BlockKind::DataStage => "Data Stage",
        BlockKind::StatusStage => "Status Stage",
        BlockKind::Isoch => "Isoch",
        BlockKind::Link => "Link",
        BlockKind::EventData => "Event Data",
        BlockKind::NoOp => "No Op",
        BlockKind::EnableSlot => "Enable Slot Command",
        BlockKind::DisableSlot => "Disable Slot Command",
        BlockKind::AddressDevice => "Address Device Command",
        BlockKind::ConfigureEndpoint => "Configure Endpoint Command",
        BlockKind::EvaluateContext => "Evaluate Context Command",
        BlockKind::ResetEndpoint => "Reset Endpoint Command",
        BlockKind::StopEndpoint => "Stop Endpoint Command",
        BlockKind::SetTrDequeue => "Set TR Dequeue Pointer Command",
        BlockKind::ResetDevice => "Reset Device Command",
        BlockKind::NoOpCommand => "No Op Command",
        BlockKind::TransferEvent => "Transfer Event",
        BlockKind::CommandCompletion => "Command Completion Event",
        BlockKind::PortStatusChange => "Port Status Change Event",
        BlockKind::BandwidthRequest => "Bandwidth Request Event",
        BlockKind::Doorbell => "Doorbell Event",
        BlockKind::HostController => "Host Controller Event",
        BlockKind::DeviceNotification => "Device Notification Event",
        BlockKind::MfindexWrap => "MFINDEX Wrap Event",
        BlockKind::Unknown(_) => "a TRB of a reserved type",
    }
}

/// The name of a Completion Code (xHCI table 6-90).
pub fn code_name(code: u8) -> &'static str {
    match code {
        0 => "Invalid",
        1 => "Success",
        2 => "Data Buffer Error",
        3 => "Babble Detected Error",
        4 => "USB Transaction Error",
        5 => "TRB Error",
        6 => "Stall Error",
        7 => "Resource Error",
        8 => "Bandwidth Error",
        9 => "No Slots Available Error",
        11 => "Slot Not Enabled Error",
        12 => "Endpoint Not Enabled Error",
        13 => "Short Packet",
        14 => "Ring Underrun",
        15 => "Ring Overrun",
        17 => "Parameter Error",
        18 => "Bandwidth Overrun Error",
        19 => "Context State Error",
        20 => "No Ping Response Error",
        23 => "Missed Service Error",
        24 => "Command Ring Stopped",
        25 => "Command Aborted",
        26 => "Stopped",
        27 => "Stopped - Length Invalid",
        28 => "Stopped - Short Packet",
        31 => "Isoch Buffer Overrun",
        36 => "Split Transaction Error",
        _ => "another Completion Code",
    }
}

/// The name of a slot's state (xHCI 4.5.3).
pub fn slot_state_name(state: SlotState) -> &'static str {
    match state {
        SlotState::Disabled => "Disabled",
        SlotState::Enabled => "Enabled",
        SlotState::Default => "Default",
        SlotState::Addressed => "Addressed",
        SlotState::Configured => "Configured",
    }
}

/// The name of a command (xHCI 4.6).
pub fn command_name(command: Command) -> &'static str {
    match command {
        Command::NoOp => "No Op Command",
        Command::EnableSlot => "Enable Slot",
        Command::DisableSlot { .. } => "Disable Slot",
        Command::AddressDevice { .. } => "Address Device",
        Command::ConfigureEndpoint { .. } => "Configure Endpoint",
        Command::EvaluateContext { .. } => "Evaluate Context",
        Command::ResetEndpoint { .. } => "Reset Endpoint",
        Command::StopEndpoint { .. } => "Stop Endpoint",
        Command::SetTrDequeue { .. } => "Set TR Dequeue Pointer",
        Command::ResetDevice { .. } => "Reset Device",
    }
}

/// The name of an endpoint's state (xHCI 4.8.3).
pub fn endpoint_state_name(state: EndpointState) -> &'static str {
    match state {
        EndpointState::Disabled => "Disabled",
        EndpointState::Running => "Running",
        EndpointState::Halted => "Halted",
        EndpointState::Stopped => "Stopped",
        EndpointState::Error => "Error",
    }
}

/// The ring with this ID.
pub fn ring_with(rings: &[Ring], id: u8) -> Option<&Ring> {
    rings.iter().find(|ring| ring.id == id)
}

/// The first ring of this kind.
pub fn ring_of_kind(rings: &[Ring], kind: RingKind) -> Option<&Ring> {
    rings.iter().find(|ring| ring.shape.kind() == kind)
}
