ghost use Rattle.std.specs.Prelude.{◌≡◌, Some};
ghost use Rattle.std.specs.Fmt.{padded};
ghost use Rattle.trb.specs.Kind.{kind_numbered, number_of, kind_name, is_event_data, carries_on, is_transfer, is_left_out_transfer, is_command, is_left_out_command};

use crate::profile::Profile;
use std::fmt;

/// The type of a block (xHCI 6.4.6, table 6-91).
#[derive(Clone, Copy, Debug, PartialEq, Eq)]
pub enum BlockKind {
    Normal,
    SetupStage,
    DataStage,
    StatusStage,
    Isoch,
    Link,
    EventData,
    NoOp,
    EnableSlot,
    DisableSlot,
    AddressDevice,
    ConfigureEndpoint,
    EvaluateContext,
    ResetEndpoint,
    StopEndpoint,
    SetTrDequeue,
    ResetDevice,
    NoOpCommand,
    TransferEvent,
    CommandCompletion,
    PortStatusChange,
    BandwidthRequest,
    Doorbell,
    HostController,
    DeviceNotification,
    MfindexWrap,
    /// A type that this project gives no name, by its number.
    Unknown(u8),
}

impl BlockKind {
    /// The type with this number, the TRB Type field of a block (6 bits, xHCI 6.4.6).
    #[inline(always)]
    pub fn from_number(number: u8) -> BlockKind
        ensures kind { result ≡ kind_numbered number }
        ensures number { number_of result ≡ number }
    {
        match number {
            1 => BlockKind::Normal,
            2 => BlockKind::SetupStage,
            3 => BlockKind::DataStage,
            4 => BlockKind::StatusStage,
            5 => BlockKind::Isoch,
            6 => BlockKind::Link,
            7 => BlockKind::EventData,
            8 => BlockKind::NoOp,
            9 => BlockKind::EnableSlot,
            10 => BlockKind::DisableSlot,
            11 => BlockKind::AddressDevice,
            12 => BlockKind::ConfigureEndpoint,
            13 => BlockKind::EvaluateContext,
            14 => BlockKind::ResetEndpoint,
            15 => BlockKind::StopEndpoint,
            16 => BlockKind::SetTrDequeue,
            17 => BlockKind::ResetDevice,
            23 => BlockKind::NoOpCommand,
            32 => BlockKind::TransferEvent,
            33 => BlockKind::CommandCompletion,
            34 => BlockKind::PortStatusChange,
            35 => BlockKind::BandwidthRequest,
            36 => BlockKind::Doorbell,
            37 => BlockKind::HostController,
            38 => BlockKind::DeviceNotification,
            39 => BlockKind::MfindexWrap,
            _ => BlockKind::Unknown(number),
        }
    }

    /// The number of the type, as the TRB Type field has it.
    pub fn number(self) -> u8
        ensures { result ≡ number_of self }
    {
        match self {
            BlockKind::Normal => 1,
            BlockKind::SetupStage => 2,
            BlockKind::DataStage => 3,
            BlockKind::StatusStage => 4,
            BlockKind::Isoch => 5,
            BlockKind::Link => 6,
            BlockKind::EventData => 7,
            BlockKind::NoOp => 8,
            BlockKind::EnableSlot => 9,
            BlockKind::DisableSlot => 10,
            BlockKind::AddressDevice => 11,
            BlockKind::ConfigureEndpoint => 12,
            BlockKind::EvaluateContext => 13,
            BlockKind::ResetEndpoint => 14,
            BlockKind::StopEndpoint => 15,
            BlockKind::SetTrDequeue => 16,
            BlockKind::ResetDevice => 17,
            BlockKind::NoOpCommand => 23,
            BlockKind::TransferEvent => 32,
            BlockKind::CommandCompletion => 33,
            BlockKind::PortStatusChange => 34,
            BlockKind::BandwidthRequest => 35,
            BlockKind::Doorbell => 36,
            BlockKind::HostController => 37,
            BlockKind::DeviceNotification => 38,
            BlockKind::MfindexWrap => 39,
            BlockKind::Unknown(number) => number,
        }
    }

    /// The types that a transfer descriptor may have, in the profile or not. A Link belongs to no descriptor.
    pub fn is_transfer(self) -> bool
        ensures { result ≡ is_transfer self }
    {
        matches!(
            self,
            BlockKind::Normal
                | BlockKind::SetupStage
                | BlockKind::DataStage
                | BlockKind::StatusStage
                | BlockKind::Isoch
                | BlockKind::EventData
                | BlockKind::NoOp
        )
    }

    /// Event Data: the value that an event tells instead of the address of a block (xHCI 4.11.5.2, 6.4.4.2).
    #[inline(always)]
    pub fn is_event_data(self) -> bool
        ensures { result ≡ is_event_data self }
    {
        self == BlockKind::EventData
    }

    /// The types with which a descriptor goes on behind its first block.
    pub fn carries_on(self) -> bool
        ensures { result ≡ carries_on self }
    {
        matches!(self, BlockKind::Normal | BlockKind::EventData)
    }

    /// The blocks of transfers that a profile leaves out: isochronous ones and Event Data, or none.
    pub fn is_left_out_transfer(self, profile: Profile) -> bool
        ensures { result ≡ is_left_out_transfer profile self }
    {
        match self {
            BlockKind::Isoch | BlockKind::EventData => profile == Profile::Basic,
            _ => false,
        }
    }

    /// The commands of the profile.
    pub fn is_command(self) -> bool
        ensures { result ≡ is_command self }
    {
        matches!(
            self,
            BlockKind::EnableSlot
                | BlockKind::DisableSlot
                | BlockKind::AddressDevice
                | BlockKind::ConfigureEndpoint
                | BlockKind::EvaluateContext
                | BlockKind::ResetEndpoint
                | BlockKind::StopEndpoint
                | BlockKind::SetTrDequeue
                | BlockKind::ResetDevice
                | BlockKind::NoOpCommand
        )
    }

    /// Commands that the profile leaves out: those of virtual functions, bandwidth, latency and extended properties,
    /// and vendors' own.
    pub fn is_left_out_command(self) -> bool
        ensures { result ≡ is_left_out_command self }
    {
        matches!(self, BlockKind::Unknown(18..=22 | 24 | 25 | 48..))
    }

    /// The name that is printed; `Unknown` for a type without one.
    pub fn name(self) -> &'static str
        ensures { result.now ≡ kind_name self }
    {
        match self {
            BlockKind::Normal => "Normal",
            BlockKind::SetupStage => "SetupStage",
            BlockKind::DataStage => "DataStage",
            BlockKind::StatusStage => "StatusStage",
            BlockKind::Isoch => "Isoch",
            BlockKind::Link => "Link",
            BlockKind::EventData => "EventData",
            BlockKind::NoOp => "NoOp",
            BlockKind::EnableSlot => "EnableSlot",
            BlockKind::DisableSlot => "DisableSlot",
            BlockKind::AddressDevice => "AddressDevice",
            BlockKind::ConfigureEndpoint => "ConfigureEndpoint",
            BlockKind::EvaluateContext => "EvaluateContext",
            BlockKind::ResetEndpoint => "ResetEndpoint",
            BlockKind::StopEndpoint => "StopEndpoint",
            BlockKind::SetTrDequeue => "SetTRDequeue",
            BlockKind::ResetDevice => "ResetDevice",
            BlockKind::NoOpCommand => "NoOpCommand",
            BlockKind::TransferEvent => "TransferEvent",
            BlockKind::CommandCompletion => "CommandCompletion",
            BlockKind::PortStatusChange => "PortStatusChange",
            BlockKind::BandwidthRequest => "BandwidthRequest",
            BlockKind::Doorbell => "Doorbell",
            BlockKind::HostController => "HostController",
            BlockKind::DeviceNotification => "DeviceNotification",
            BlockKind::MfindexWrap => "MFINDEXWrap",
            BlockKind::Unknown(_) => "Unknown",
        }
    }
}

impl fmt::Display for BlockKind {
    ghost output = { λ kind. Some (kind_name kind) };

    ghost styled_output = { λ kind spec. Some (padded spec (kind_name kind)) };

    fn fmt<W: fmt::Write>(&self, f: &mut fmt::Formatter<W>) -> fmt::Result {
        f.pad(self.name())
    }
}
