ghost use Rattle.std.specs.Prelude.{◌≡◌, ℕ, IfOk};
ghost use Rattle.traces.specs.AllowedHeaders.{IsHeader};
ghost use Rattle.traces.specs.declared.header.Header.{Header as HeaderValue};
ghost use Rattle.traces.specs.declared.row.Row.TheVariants.{RegRead};
ghost use Rattle.ring_knowledge.specs.Known.{Known, nothing};
ghost use Rattle.ring_knowledge.specs.Learned.{learned};

use crate::device_record::{DeviceRecord, UnfinishedCommands};
use crate::fresh::{event_place, fresh_records};
use crate::range_words::{Areas, SoiledWords};
use crate::ring_set::RingSet;
use event_ring::EventPlace;
use ring_knowledge::{RegisterRecord, RingRecord};
use std::alloc::{AllocError, Global};
use traces::{Header, Register};

/// What one pass over a trace keeps of its rows so far, beside the words of memory. Contracts compare it with what is `Known`.
#[derive(Drop)]
pub struct TraceRecord {
    /// A record of each ring, in the order of the header.
    pub rings: Vec<RingRecord>,
    pub registers: RegisterRecord,
    /// How many events were read, and the position that ERDP names, where there is an event ring.
    pub events: Option<EventPlace>,
    /// Slots and endpoints.
    pub devices: DeviceRecord,
    /// The commands that were given and whose completion wasn't read.
    pub commands: UnfinishedCommands,
    /// The rings that these commands bind endpoints to (xHCI 4.6.5, 4.6.6).
    pub bound: RingSet,
    /// The input contexts of these commands.
    pub inputs: Areas,
    /// The device contexts under lease.
    pub contexts: Areas,
    /// The words that the controller may have changed, and the driver hasn't written since.
    pub soiled: SoiledWords,
}

impl TraceRecord {
    ghost use Rattle.trace_record.specs.FollowsTrace.{FollowsTrace};
    ghost use Rattle.trace_record.specs.Fresh.{IsWithin};

    /// The record before the first row, when each word of memory is 0.
    pub fn new(alloc: Global, header: &Header) -> Result<TraceRecord, AllocError>
        requires { IsHeader header.now }
        ensures follows { IfOk result (λ t. (memory : ℕ → ℕ) → ((a : ℕ) → memory a ≡ 0) → FollowsTrace header.now nothing t memory) }
        ensures unread { IfOk result (λ t. IsWithin t.events 0) }
    {
        let context = header.context_size.bytes();
        Ok(TraceRecord {
            rings: fresh_records(alloc, header.rings.as_slice())?,
            registers: RegisterRecord::new(),
            events: event_place(header)?,
            devices: DeviceRecord::new(alloc)?,
            commands: UnfinishedCommands::new(alloc)?,
            bound: RingSet::new(),
            inputs: Areas::new(alloc, 33 * context),
            contexts: Areas::new(alloc, 32 * context),
            soiled: SoiledWords::new(alloc),
        })
    }

    /// Notes that a register was read (xHCI 5.4.2).
    pub fn read_register(&mut self, register: Register, value: u64)
        ensures followed { (h : HeaderValue) (k : Known) (memory : ℕ → ℕ) → FollowsTrace h k self.old memory → FollowsTrace h (learned h k (RegRead register value)) self.new memory }
        ensures events { self.new.events ≡ self.old.events }
    {
        self.registers.read(register, value);
    }
}
