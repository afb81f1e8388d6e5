//! What is known before the refused row: memory, rings, slots and endpoints, as the rows tell of them.
ghost use Rattle.std.specs.Prelude.{◌≡◌, ◌<◌, ◌%◌, OnOk};
ghost use Rattle.traces.specs.AllowedHeaders.{IsHeader};
ghost use Rattle.trace_record.specs.RingFinder.Finding.{IsFinder};

use crate::areas::{Area, areas};
use crate::controller_past::ControllerPast;
use crate::live_rings::{add_ring, clashes_with_one, remove_ring};
use crate::positions::is_handed_over;
use crate::ring_past::RingPast;
use crate::unfinished::{Unfinished, all_unfinished};
use commands::{Command, EndpointState};
use contexts::{ContextSize, EndpointContext, InputContext};
use guest_memory::{Addr, SparseMemory, WordMemory};
use ring_knowledge::{RingGiving, RingRecord};
use std::alloc::{AllocError, Global};
use trace_record::{DeviceRecord, Finder, Named, is_command_ring, is_event_ring};
use traces::{Header, Register, Ring, Rings, Row, Version};
use trb::{Block, BlockKind, RingKind, is_halting, is_stopping, is_success, is_trb_error};

/// That an endpoint got a ring.
#[derive(Clone, Copy)]
pub struct Binding {
    pub ring: u8,
    pub slot: u8,
    pub endpoint: u8,
    /// The index of the row that read the command's completion.
    pub row: usize,
}

/// That an endpoint was disabled that had a ring.
#[derive(Clone, Copy)]
pub struct Dropping {
    pub slot: u8,
    pub endpoint: u8,
    pub by: Dropper,
    /// The index of the row that read the command's completion, or that reset the controller.
    pub row: usize,
}

/// What disabled an endpoint.
#[derive(Clone, Copy)]
pub enum Dropper {
    Command(Command),
    /// The reset of the controller.
    Reset,
}

/// That memory is the controller's to write, or was.
#[derive(Clone, Copy)]
pub struct Taking {
    pub by: Taker,
    /// Where it lies.
    pub from: u64,
    pub bytes: u64,
    /// The index of the row behind which the driver has to write it again: the one that gave the Address Device, or took the Event Ring away.
    pub row: usize,
}

/// What the controller writes.
#[derive(Clone, Copy, PartialEq, Eq)]
pub enum Taker {
    /// The Device Context of this slot, since its first Address Device.
    Device(u8),
    /// The Event Ring with this ID, until it went.
    EventRing(u8),
}

/// That a ring went.
#[derive(Clone, Copy)]
pub struct Going {
    pub ring: u8,
    pub kind: RingKind,
    /// The index of the row that took it away.
    pub row: usize,
}

/// That an event was read which says of an endpoint that it rests.
#[derive(Clone, Copy)]
pub struct Resting {
    pub slot: u8,
    pub endpoint: u8,
    /// The index of the row that read the event.
    pub row: usize,
}

/// What is known after some rows.
#[derive(Drop)]
pub struct Known {
    pub controller: ControllerPast,
    pub memory: SparseMemory,
    /// Of each word the row that wrote it last, by its index and one more; 0 of a word that none wrote.
    writers: SparseMemory,
    /// In the order of the header.
    pub rings: Vec<RingRecord>,
    /// In the order of the header.
    pub pasts: Vec<RingPast>,
    pub devices: DeviceRecord,
    /// In the order of their rows.
    pub bindings: Vec<Binding>,
    /// In the order of their rows.
    pub droppings: Vec<Dropping>,
    /// In the order of their rows.
    pub takings: Vec<Taking>,
    /// The Stop Endpoints that succeeded, in the order of their rows.
    pub stops: Vec<Resting>,
    /// The Transfer Events by which an endpoint came into the state Halted or Error (xHCI 4.8.3), in the order of their rows.
    pub halts: Vec<Resting>,
    /// The rings that went, in the order of their rows.
    goings: Vec<Going>,
}

/// Which rings are there after some rows, what is known, which commands are unfinished, and what the controller has beside rings.
#[derive(Drop)]
pub struct Behind {
    pub header: Header,
    pub known: Known,
    pub(crate) unfinished: Vec<Unfinished>,
    pub(crate) areas: Vec<Area>,
}

impl Behind {
    /// Where there are neither rings nor rows, as beside a plan.
    pub fn nothing(alloc: Global) -> Result<Behind, AllocError> {
        let header = Header {
            version: Version::Three,
            context_size: ContextSize::Bytes32,
            rings: Rings::new(Vec::new(alloc)),
        };
        let known = Known::new(alloc, &header)?;
        Ok(Behind {
            header,
            known,
            unfinished: Vec::new(alloc),
            areas: Vec::new(alloc),
        })
    }
}

/// What is known after these rows, and of which rings.
pub fn known_after(alloc: Global, header: &Header, rows: &[Row]) -> Result<Behind, AllocError>
    requires { IsHeader header.now }
{
    let mut header = header.copy(alloc)?;
    let mut finder = Finder::new(alloc, &header)?;
    let mut known = Known::new(alloc, &header)?;
    for (index, row) in rows.iter().enumerate() {
        known.learn(alloc, &mut header, &mut finder, index, row)?;
    }
    let unfinished = all_unfinished(alloc, &header, &known)?;
    let areas = areas(alloc, &header, rows, &known, unfinished.as_slice())?;
    Ok(Behind {
        header,
        known,
        unfinished,
        areas,
    })
}

impl Known {
    /// Before the first row.
    fn new(alloc: Global, header: &Header) -> Result<Known, AllocError> {
        let mut rings = Vec::new(alloc);
        let mut pasts = Vec::new(alloc);
        for ring in header.rings.as_slice() {
            rings.push(RingRecord::new(alloc, &ring.shape)?)?;
            pasts.push(RingPast::new(alloc))?;
        }
        Ok(Known {
            controller: ControllerPast::new(),
            memory: SparseMemory::new(alloc),
            writers: SparseMemory::new(alloc),
            rings,
            pasts,
            devices: DeviceRecord::new(alloc)?,
            bindings: Vec::new(alloc),
            droppings: Vec::new(alloc),
            takings: Vec::new(alloc),
            stops: Vec::new(alloc),
            halts: Vec::new(alloc),
            goings: Vec::new(alloc),
        })
    }

    /// Notes one more row: what the driver did, an event that it read, or that a ring came or went, or a TD was withdrawn.
    fn learn(
        &mut self,
        alloc: Global,
        header: &mut Header,
        finder: &mut Finder,
        index: usize,
        row: &Row,
    ) -> Result<(), AllocError>
        requires headed { IsHeader header.now }
        requires found { IsFinder header.now.rings finder.now }
        ensures headed { OnOk result (IsHeader header.new) }
        ensures found { OnOk result (IsFinder header.new.rings finder.new) }
    {
        match row {
            Row::Sub { ring, blocks } => {
                self.learn_declared(finder, index, *ring, blocks.as_slice())
            }
            Row::Write { at, word } => self.learn_word(header, finder, index, *at, *word),
            Row::Reg { register, value } => self.learn_register(header, index, *register, *value),
            Row::Bell { slot, target } => {
                self.learn_bell(finder, *slot, *target);
                Ok(())
            }
            Row::Read { event } => match event.kind() {
                BlockKind::TransferEvent => self.learn_transfer(header, finder, index, *event),
                BlockKind::CommandCompletion => self.learn_completion(
                    header, finder, index, *event,
                ),
                _ => Ok(()),
            },
            Row::Ring { ring } => self.learn_coming(alloc, header, finder, ring.as_ring()),
            Row::Free { ring: id } => self.learn_going(alloc, header, finder, index, *id),
            Row::Nop { ring, position } => {
                self.learn_withdrawn(header, finder, index, *ring, *position)
            }
            Row::RegRead { register, value } => {
                self.controller.read(index, *register, *value);
                Ok(())
            }
        }
    }

    /// A register is written.
    fn learn_register(
        &mut self,
        header: &Header,
        row: usize,
        register: Register,
        value: u64,
    ) -> Result<(), AllocError> {
        if self.controller.write(header.version, row, register, value) {
            self.learn_reset(header, row)
        } else {
            Ok(())
        }
    }

    /// The controller is reset: it forgets slots and endpoints. Of the Command Ring what was given is over; any other ring it may have read
    /// as far as it is given.
    fn learn_reset(&mut self, header: &Header, row: usize) -> Result<(), AllocError> {
        for slot in 1..=255u8 {
            self.note_droppings(row, Dropper::Reset, slot, Named::All)?;
        }
        self.devices.clear();
        for (number, ring) in header.rings.as_slice().iter().enumerate() {
            self.reset_ring(row, number, ring)?;
        }
        Ok(())
    }

    /// The controller is reset: so much of one ring.
    fn reset_ring(&mut self, row: usize, number: usize, ring: &Ring) -> Result<(), AllocError> {
        if let (Some(known), Some(past)) = (
            self.rings.get_mut(number),
            self.pasts.get_mut(number),
        ) {
            if is_command_ring(ring) {
                known.give_up(&ring.shape);
            } else {
                known.hold_at_given();
            }
            past.note_passed(row, known.floor_number())?;
        }
        Ok(())
    }

    /// A ring comes.
    fn learn_coming(
        &mut self,
        alloc: Global,
        header: &mut Header,
        finder: &mut Finder,
        ring: &Ring,
    ) -> Result<(), AllocError>
        requires headed { IsHeader header.now }
        requires found { IsFinder header.now.rings finder.now }
        ensures headed { OnOk result (IsHeader header.new) }
        ensures found { OnOk result (IsFinder header.new.rings finder.new) }
    {
        if clashes_with_one(header.rings.as_slice(), ring) {
            return Ok(());
        }
        self.rings.push(RingRecord::new(alloc, &ring.shape)?)?;
        self.pasts.push(RingPast::new(alloc))?;
        add_ring(alloc, header, finder, ring)
    }

    /// A ring goes.
    fn learn_going(
        &mut self,
        alloc: Global,
        header: &mut Header,
        finder: &mut Finder,
        row: usize,
        id: u8,
    ) -> Result<(), AllocError>
        requires headed { IsHeader header.now }
        requires found { IsFinder header.now.rings finder.now }
        ensures headed { OnOk result (IsHeader header.new) }
        ensures found { OnOk result (IsFinder header.new.rings finder.new) }
    {
        let Some(number) = finder.ring_named(id) else {
            return Ok(());
        };
        if number >= self.rings.len()
            || number >= self.pasts.len()
            || number >= header.rings.as_slice().len()
        {
            return Ok(());
        }
        self.rings.remove(number);
        self.pasts.remove(number);
        if let Some(ring) = header.rings.as_slice().get(number) {
            self.note_going(row, ring)?;
        }
        remove_ring(alloc, header, finder, number)
    }

    /// Notes that a ring goes: CRCR names it no more, and what it holds of events the controller may have written.
    fn note_going(&mut self, row: usize, ring: &Ring) -> Result<(), AllocError> {
        self.goings.push(Going {
            ring: ring.id,
            kind: ring.shape.kind(),
            row,
        })?;
        self.controller.registers.let_ring_go(is_command_ring(ring));
        if !is_event_ring(ring) {
            return Ok(());
        }
        for segment in ring.shape.segments() {
            self.takings.push(Taking {
                by: Taker::EventRing(ring.id),
                from: segment.base,
                bytes: 16 * u64::from(segment.count),
                row,
            })?;
        }
        Ok(())
    }

    /// A TD is withdrawn: what was handed over of it, and didn't come back, is the driver's until the ring is started or moved.
    fn learn_withdrawn(
        &mut self,
        header: &Header,
        finder: &Finder,
        row: usize,
        id: u8,
        position: u64,
    ) -> Result<(), AllocError> {
        let Some(number) = finder.ring_named(id) else {
            return Ok(());
        };
        if let (Some(ring), Some(known), Some(past)) = (
            header.rings.as_slice().get(number),
            self.rings.get(number),
            self.pasts.get_mut(number),
        ) {
            if let Some(td) = past.td_with(position) {
                past.withdraw(row, position);
                let first = td.first.max(known.floor_number());
                for own in first..td.first.saturating_add(td.count) {
                    if is_handed_over(ring, known, own) {
                        past.set_free(row, own)?;
                    }
                }
            }
        }
        Ok(())
    }

    /// The ring with this ID is started or moved.
    fn restore(&mut self, finder: &Finder, id: u8) {
        if let Some(number) = finder.ring_named(id) {
            if let Some(past) = self.pasts.get_mut(number) {
                past.restore();
            }
        }
    }

    /// TRBs were submitted.
    fn learn_declared(
        &mut self,
        finder: &Finder,
        row: usize,
        id: u8,
        blocks: &[Block],
    ) -> Result<(), AllocError> {
        let Some(number) = finder.ring_named(id) else {
            return Ok(());
        };
        if blocks.is_empty() || blocks.len() > 256 {
            return Ok(());
        }
        if let (Some(known), Some(past)) = (
            self.rings.get_mut(number),
            self.pasts.get_mut(number),
        ) {
            past.submit(row, blocks.len())?;
            known.declare(blocks)?;
        }
        Ok(())
    }

    /// A word was written.
    fn learn_word(
        &mut self,
        header: &Header,
        finder: &Finder,
        row: usize,
        at: Addr,
        word: u32,
    ) -> Result<(), AllocError>
        requires headed { IsHeader header.now }
        requires found { IsFinder header.now.rings finder.now }
    {
        self.memory.set(at, word)?;
        let writer = u32::try_from(row).unwrap_or(u32::MAX);
        self.writers.set(at, writer.saturating_add(1))?;
        let Some(number) = finder.ring_at(header, at.get()) else {
            return Ok(());
        };
        let mut given = None;
        if let (Some(ring), Some(known)) = (
            header.rings.as_slice().get(number),
            self.rings.get_mut(number),
        ) {
            let standing = known.look(&ring.shape, at, word);
            known.note_giving(&ring.shape, standing.giving);
            if let Some(RingGiving::Position(position)) = standing.giving {
                given = known.declared(position);
            }
        }
        match given {
            Some(block) => if finder.commands == Some(number) {
                self.learn_command(header, finder, row, block)
            } else {
                Ok(())
            },
            None => Ok(()),
        }
    }

    /// A command was given: the first Address Device of a slot takes its Device Context, and Set TR Dequeue Pointer moves a ring.
    fn learn_command(
        &mut self,
        header: &Header,
        finder: &Finder,
        row: usize,
        block: Block,
    ) -> Result<(), AllocError> {
        match Command::read(&block) {
            Ok(Command::AddressDevice { slot, .. }) => {
                if self.devices.device(slot).is_none() {
                    let address = self.device_named(slot);
                    self.devices.take_device(slot, address);
                    self.takings.push(Taking {
                        by: Taker::Device(slot),
                        from: address,
                        bytes: 32 * header.context_size.bytes(),
                        row,
                    })?;
                }
            }
            Ok(Command::SetTrDequeue { slot, endpoint, .. }) => {
                if let Some(id) = self.devices.ring_of(slot, endpoint) {
                    self.restore(finder, id);
                }
            }
            _ => {}
        }
        Ok(())
    }

    /// Where a slot's entry of the DCBAA lies; the array counts as one at 0 before DCBAAP was written.
    pub fn entry_of(&self, slot: u8) -> u64 {
        let array = self.controller.registers.value(Register::Dcbaap);
        (array.unwrap_or(0) / 64 * 64).saturating_add(8 * u64::from(slot))
    }

    /// The address in a slot's entry of the DCBAA.
    pub fn device_named(&self, slot: u8) -> u64 {
        let entry = self.entry_of(slot);
        u64::from(self.word(entry.saturating_add(4))) << 32 | u64::from(self.word(entry))
    }

    /// The row that gave the Address Device by which a slot got its Device Context.
    pub fn taken_by(&self, slot: u8) -> Option<usize> {
        let mut last = None;
        for taking in &self.takings {
            if taking.by == Taker::Device(slot) {
                last = Some(taking.row);
            }
        }
        last
    }

    /// What of the controller's had the word at an address last.
    pub fn taken_over(&self, address: u64) -> Option<Taking> {
        let mut last = None;
        for taking in &self.takings {
            if address >= taking.from && address - taking.from < taking.bytes {
                last = Some(*taking);
            }
        }
        last
    }

    /// A doorbell was rung.
    fn learn_bell(&mut self, finder: &Finder, slot: u8, target: u8) {
        let number = if slot == 0 {
            finder.commands
        } else {
            match self.devices.ring_of(slot, target) {
                Some(id) => finder.ring_named(id),
                None => None,
            }
        };
        if let Some(number) = number {
            if let (Some(known), Some(past)) = (
                self.rings.get_mut(number),
                self.pasts.get_mut(number),
            ) {
                known.open();
                past.restore();
            }
        }
        self.devices.ring_bell(slot, target);
    }

    /// A Transfer Event was read.
    fn learn_transfer(
        &mut self,
        header: &Header,
        finder: &Finder,
        row: usize,
        event: Block,
    ) -> Result<(), AllocError> {
        let (slot, endpoint) = (event.slot(), event.endpoint());
        let code = self.devices.code_told(header, event);
        let Some(id) = self.devices.ring_of(slot, endpoint) else {
            return Ok(());
        };
        let Some(number) = finder.ring_named(id) else {
            return Ok(());
        };
        if let (Some(ring), Some(known), Some(past)) = (
            header.rings.as_slice().get(number),
            self.rings.get_mut(number),
            self.pasts.get_mut(number),
        ) {
            if let Some(spot) = known.named_by(&ring.shape, event) {
                if is_success(code) {
                    known.pass(&ring.shape, spot);
                } else if is_failure(code) {
                    known.break_off(&ring.shape, spot);
                } else if is_stopping(code) {
                    known.stop_at(&ring.shape, spot);
                }
            }
            past.note_passed(row, known.floor_number())?;
        }
        self.learn_state(row, slot, endpoint, code)
    }

    /// A Transfer Event was read whose code counts so at its endpoint.
    fn learn_state(
        &mut self,
        row: usize,
        slot: u8,
        endpoint: u8,
        code: u8,
    ) -> Result<(), AllocError> {
        if is_failure(code) {
            self.halts.push(Resting {
                slot,
                endpoint,
                row,
            })?;
        }
        if endpoint < 32 {
            self.devices.read_transfer(code, slot, endpoint);
        }
        Ok(())
    }

    /// A Command Completion Event was read: the next command has come to its end.
    fn learn_completion(
        &mut self,
        header: &Header,
        finder: &Finder,
        row: usize,
        event: Block,
    ) -> Result<(), AllocError>
        requires headed { IsHeader header.now }
        requires found { IsFinder header.now.rings finder.now }
    {
        let Some(number) = finder.commands else {
            return Ok(());
        };
        let mut command = None;
        if let (Some(ring), Some(known)) = (
            header.rings.as_slice().get(number),
            self.rings.get_mut(number),
        ) {
            if let Some(block) = known.declared(known.floor_number()) {
                command = Command::read(&block).ok();
            }
            let floor = known.floor();
            known.pass(&ring.shape, floor);
        }
        match command {
            Some(command) => {
                if event.code() == 1 {
                    self.learn_success(header, finder, row, command, event.slot())?;
                }
                self.learn_end(command);
                Ok(())
            }
            None => Ok(()),
        }
    }

    /// A Stop Endpoint has come to its end, whatever its code.
    fn learn_end(&mut self, command: Command) {
        if let Command::StopEndpoint { slot, endpoint } = command {
            if endpoint < 32 {
                self.devices.end_stop(slot, endpoint);
            }
        }
    }

    /// A command has succeeded; `slot` is that of its completion.
    fn learn_success(
        &mut self,
        header: &Header,
        finder: &Finder,
        row: usize,
        command: Command,
        slot: u8,
    ) -> Result<(), AllocError>
        requires headed { IsHeader header.now }
        requires found { IsFinder header.now.rings finder.now }
    {
        match command {
            Command::NoOp | Command::EvaluateContext { .. } => {}
            Command::EnableSlot => self.devices.go_on(&command, slot),
            Command::DisableSlot { slot } => {
                self.devices.go_on(&command, slot);
                self.devices.leave_device(slot);
                self.note_droppings(row, Dropper::Command(command), slot, Named::All)?;
                self.devices.disable(slot, Named::All);
            }
            Command::ResetDevice { slot }
            | Command::ConfigureEndpoint {
                slot,
                deconfigure: true,
                ..
            } => {
                self.devices.go_on(&command, slot);
                let by = Dropper::Command(command);
                self.note_droppings(row, by, slot, Named::AboveControl)?;
                self.devices.disable(slot, Named::AboveControl);
            }
            Command::AddressDevice {
                slot,
                input_context,
                ..
            } => {
                self.devices.go_on(&command, slot);
                return self.learn_context(header, finder, row, slot, input_context, 1, 2);
            }
            Command::ConfigureEndpoint {
                slot,
                input_context,
                ..
            } => {
                self.devices.go_on(&command, slot);
                self.learn_types(header, slot, input_context);
                let dropped = Named::Dropped(self.word(input_context));
                self.note_droppings(row, Dropper::Command(command), slot, dropped)?;
                self.devices.disable(slot, dropped);
                return self.learn_context(header, finder, row, slot, input_context, 2, 32);
            }
            Command::ResetEndpoint { slot, endpoint } => {
                if endpoint < 32 {
                    self.devices.reset(slot, endpoint);
                }
            }
            Command::StopEndpoint { slot, endpoint } => {
                self.stops.push(Resting {
                    slot,
                    endpoint,
                    row,
                })?;
                self.learn_stop(finder, slot, endpoint);
            }
            Command::SetTrDequeue {
                slot,
                endpoint,
                dequeue,
                cycle,
            } => {
                return self.learn_place(
                    header,
                    finder,
                    row,
                    slot,
                    endpoint,
                    dequeue,
                    cycle,
                    EndpointState::Stopped,
                );
            }
        }
        Ok(())
    }

    /// Notes which endpoints of a slot have a ring and are disabled now.
    fn note_droppings(
        &mut self,
        row: usize,
        by: Dropper,
        slot: u8,
        named: Named,
    ) -> Result<(), AllocError> {
        for endpoint in 1..32 {
            if is_named(named, endpoint) && self.devices.ring_of(slot, endpoint).is_some() {
                self.droppings.push(Dropping {
                    slot,
                    endpoint,
                    by,
                    row,
                })?;
            }
        }
        Ok(())
    }

    /// The last row that wrote the word at an address.
    pub fn last_writer(&self, address: u64) -> Option<usize> {
        let at = Addr::new(address)?;
        let writer = self.writers.word(at).checked_sub(1)?;
        Some(writer as usize)
    }

    /// Which endpoint got a ring last.
    pub fn last_binding(&self, ring: u8) -> Option<Binding> {
        let mut last = None;
        for bound in &self.bindings {
            if bound.ring == ring {
                last = Some(*bound);
            }
        }
        last
    }

    /// The row by which an endpoint got a ring last.
    pub fn bound_by(&self, ring: u8, slot: u8, endpoint: u8) -> Option<usize> {
        let mut last = None;
        for bound in &self.bindings {
            if bound.ring == ring && bound.slot == slot && bound.endpoint == endpoint {
                last = Some(bound.row);
            }
        }
        last
    }

    /// The row by which a Stop Endpoint of an endpoint succeeded last.
    pub fn stopped_by(&self, slot: u8, endpoint: u8) -> Option<usize> {
        last_resting(self.stops.as_slice(), slot, endpoint)
    }

    /// The row that read the last event by which an endpoint came into the state Halted or Error.
    pub fn halted_by(&self, slot: u8, endpoint: u8) -> Option<usize> {
        last_resting(self.halts.as_slice(), slot, endpoint)
    }

    /// The ring of a kind that went last.
    pub fn gone_last(&self, kind: RingKind) -> Option<Going> {
        let last = self.goings.iter().rposition(|going| going.kind == kind)?;
        self.goings.get(last).copied()
    }

    /// What disabled an endpoint last.
    pub fn dropping_of(&self, slot: u8, endpoint: u8) -> Option<Dropping> {
        let mut last = None;
        for dropping in &self.droppings {
            if dropping.slot == slot && dropping.endpoint == endpoint {
                last = Some(*dropping);
            }
        }
        last
    }

    /// A Stop Endpoint has succeeded: the ring is held where its controller may be.
    fn learn_stop(&mut self, finder: &Finder, slot: u8, endpoint: u8) {
        if let Some(id) = self.devices.ring_of(slot, endpoint) {
            if let Some(number) = finder.ring_named(id) {
                if let Some(known) = self.rings.get_mut(number) {
                    known.hold_at_ceiling();
                }
            }
        }
        if endpoint < 32 {
            self.devices.stop(slot, endpoint);
        }
    }

    /// The endpoints above the default control endpoint that an Input Context adds are isochronous, or aren't.
    fn learn_types(&mut self, header: &Header, slot: u8, context: u64) {
        for endpoint in 2..32 {
            if let Some(added) = self.added(header, context, endpoint) {
                self.devices
                    .note_type(slot, endpoint, is_isochronous(added));
            }
        }
    }

    /// The endpoints from one index up to another that an Input Context adds are placed.
    fn learn_context(
        &mut self,
        header: &Header,
        finder: &Finder,
        row: usize,
        slot: u8,
        context: u64,
        from: u8,
        to: u8,
    ) -> Result<(), AllocError>
        requires headed { IsHeader header.now }
        requires found { IsFinder header.now.rings finder.now }
    {
        for endpoint in from..to {
            if let Some(added) = self.added(header, context, endpoint) {
                self.learn_place(
                    header,
                    finder,
                    row,
                    slot,
                    endpoint,
                    added.pointer,
                    added.dcs,
                    EndpointState::Running,
                )?;
            }
        }
        Ok(())
    }

    /// The Endpoint Context of an endpoint that an Input Context adds.
    pub fn added(&self, header: &Header, context: u64, endpoint: u8) -> Option<EndpointContext> {
        if context % 4 != 0 || endpoint == 0 || endpoint >= 32 {
            return None;
        }
        let input = InputContext::at(&self.memory, context, header.context_size)?;
        if input.adds(endpoint) {
            Some(input.endpoint(endpoint))
        } else {
            None
        }
    }

    /// Whether an Input Context drops an endpoint above the default control endpoint.
    pub fn drops(&self, header: &Header, context: u64, endpoint: u8) -> bool {
        if context % 4 != 0 || endpoint < 2 || endpoint >= 32 {
            return false;
        }
        match InputContext::at(&self.memory, context, header.context_size) {
            Some(input) => input.drops(endpoint),
            None => false,
        }
    }

    /// An endpoint is placed: a Disabled one gets the ring that has the block at a pointer, any other keeps its own; the ring is moved there.
    fn learn_place(
        &mut self,
        header: &Header,
        finder: &Finder,
        row: usize,
        slot: u8,
        endpoint: u8,
        pointer: u64,
        cycle: bool,
        state: EndpointState,
    ) -> Result<(), AllocError>
        requires headed { IsHeader header.now }
        requires found { IsFinder header.now.rings finder.now }
    {
        let is_new = self.devices.endpoint_state(slot, endpoint) == EndpointState::Disabled;
        let having = finder.ring_having(header, pointer);
        let id = if is_new {
            having
        } else {
            self.devices.ring_of(slot, endpoint)
        };
        if let Some(id) = id {
            self.set_ring(header, finder, row, id, pointer, cycle)?;
            if is_new {
                self.bindings.push(Binding {
                    ring: id,
                    slot,
                    endpoint,
                    row,
                })?;
            }
        }
        if endpoint < 32 {
            self.devices.place(slot, endpoint, having, state);
        }
        Ok(())
    }

    /// The pointer of a ring is moved.
    fn set_ring(
        &mut self,
        header: &Header,
        finder: &Finder,
        row: usize,
        id: u8,
        pointer: u64,
        cycle: bool,
    ) -> Result<(), AllocError> {
        let Some(number) = finder.ring_named(id) else {
            return Ok(());
        };
        if let (Some(ring), Some(known), Some(past)) = (
            header.rings.as_slice().get(number),
            self.rings.get_mut(number),
            self.pasts.get_mut(number),
        ) {
            if let Some(spot) = known.target(&ring.shape, pointer, cycle) {
                known.set_to(&ring.shape, spot);
            }
            past.note_passed(row, known.floor_number())?;
        }
        Ok(())
    }

    /// The word at an address; 0 where none can be.
    pub fn word(&self, address: u64) -> u32 {
        match Addr::new(address) {
            Some(at) => self.memory.word(at),
            None => 0,
        }
    }
}

/// An error behind which an endpoint is Halted or in the state Error.
fn is_failure(code: u8) -> bool {
    is_halting(code) || is_trb_error(code)
}

/// EP Type 1 and 5 (xHCI 6.2.3).
pub fn is_isochronous(added: EndpointContext) -> bool {
    added.ep_type % 4 == 1
}

/// The last of these rows of an endpoint.
fn last_resting(rows: &[Resting], slot: u8, endpoint: u8) -> Option<usize> {
    let last = rows.iter().rposition(|resting| resting.slot == slot
        && resting.endpoint == endpoint)?;
    Some(rows.get(last)?.row)
}

/// Whether an endpoint is among those that are disabled.
fn is_named(named: Named, endpoint: u8) -> bool {
    match named {
        Named::All => true,
        Named::AboveControl => endpoint > 1,
        Named::Dropped(flags) => endpoint > 1 && flags >> (endpoint % 32) & 1 == 1,
    }
}
