ghost use Rattle.std.specs.Prelude.{◌≡◌, ◌*◌, ◌%◌, ◌&&◌, ℕ, not, true};
ghost use Rattle.std.specs.List.{list_any};
ghost use Rattle.segments.specs.Places.{overlap};
ghost use Rattle.event_ring.specs.EventRing.{table_bytes};
ghost use Rattle.traces.specs.AllowedHeaders.{IsHeader};
ghost use Rattle.traces.specs.Header.{event_shape};
ghost use Rattle.traces.specs.Versions.{has_runs, is_lenient};
ghost use Rattle.traces.specs.declared.header.Header.{Header as HeaderValue};
ghost use Rattle.ring_knowledge.specs.Known.{Known};
ghost use Rattle.ring_knowledge.specs.RegisterRecords.{FollowsRegisters};
ghost use Rattle.trace_record.specs.DeviceSlots.Devices.{FollowsDevices};
ghost use Rattle.ownership_rules.specs.ByVersion.{writes_to_owned};
ghost use Rattle.ownership_rules.specs.Older.{stands_beside_free};
ghost use Rattle.ownership_rules.specs.OpenLeases.{covers, is_leased, is_the_controllers, open_ranges, segment_ranges};
ghost use Rattle.ownership_rules.specs.Writes.{clears_chain};
ghost use Rattle.trace_record.specs.FollowsTrace.{FollowsEvents, FollowsTrace};
ghost use Rattle.trace_record.specs.RingFinder.RecordsOfRings.{FollowsRings};
ghost use Rattle.trace_record.specs.RowPlaces.{IsOwnedSo, IsPlaced, IsPlacedSo};

use crate::ring_finder::is_event_ring;
use crate::row_place::RowPlace;
use crate::trace_record::TraceRecord;
use event_ring::EventPlace;
use guest_memory::{Addr, WordMemory};
use traces::{Header, Register, Row};

/// The Chain bit of a Link's control word (xHCI 6.4.4.1).
const CHAIN: u32 = 16;

impl TraceRecord {
    ghost use Rattle.trace_record.specs.Owned.{entries_have, others_have, rings_have, table_has};

    /// Whether a row writes to what the controller owns (WriteToOwned), where `place` is where its word lies: to a word under
    /// lease; from version 3 on only where it changes that word otherwise than the version allows, or where nobody but the
    /// controller may write it. Of another row: no.
    #[inline(always)]
    pub fn owns<M: WordMemory>(
        &self,
        header: &Header,
        memory: &M,
        row: &Row,
        place: &RowPlace,
    ) -> bool
        ensures { IsHeader header.now → (k : Known) → FollowsTrace header.now k self.now (M.words memory.now) → IsPlaced header.now k row.now place.now → IsOwnedSo header.now k row.now result }
    {
        match row {
            Row::Write { at, word } => {
                self.is_leased(*at, place.is_lent)
                    && (!header.version.is_lenient()
                        || self.is_disturbed(header, memory, *at, *word, place))
            }
            _ => false,
        }
    }

    /// Whether the write of a word under lease is to what the controller owns, by a version that lets a driver store the word
    /// that stands there: it changes the word otherwise than the version allows, or only the controller may write it.
    fn is_disturbed<M: WordMemory>(
        &self,
        header: &Header,
        memory: &M,
        at: Addr,
        word: u32,
        place: &RowPlace,
    ) -> bool
        ensures { IsHeader header.now → (k : Known) → FollowsTrace header.now k self.now (M.words memory.now) → IsPlacedSo header.now k at word place.now →
            is_lenient header.now.version ≡ true → is_leased header.now k at ≡ true → result ≡ writes_to_owned header.now k at word }
    {
        let standing = memory.word(at);
        if standing == word {
            return self.is_the_controllers(at);
        }
        !self.may_unchain(header, standing, at, word, place)
    }

    /// Whether a write takes the Chain bit, and nothing else, from a Link under lease, and the version lets a driver do so: the Link
    /// stands beside a withdrawn TRB (xHCI 4.11.5.1). Few writes change a word under lease, so it stays out of the way of the others.
    #[inline(never)]
    fn may_unchain(
        &self,
        header: &Header,
        standing: u32,
        at: Addr,
        word: u32,
        place: &RowPlace,
    ) -> bool
        ensures { IsHeader header.now → (k : Known) (memory : ℕ → ℕ) → FollowsTrace header.now k self.now memory → IsPlacedSo header.now k at word place.now →
            result ≡ (has_runs header.now.version && clears_chain standing word && stands_beside_free header.now k at && not (list_any (covers header.now at 4) (open_ranges header.now k))) }
    {
        header.version.has_runs()
            && clears_chain(standing, word)
            && self.stands_beside_free(header, at, place)
            && !self.is_in_range(at)
    }

    /// Whether a word that has this place is the control word of a Link under lease that stands beside a withdrawn TRB.
    fn stands_beside_free(&self, header: &Header, at: Addr, place: &RowPlace) -> bool
        ensures { IsHeader header.now → (k : Known) (word : ℕ) → FollowsRings header.now k self.now.rings.items → IsPlacedSo header.now k at word place.now →
            result ≡ stands_beside_free header.now k at }
    {
        let Some(number) = place.ring else {
            return false;
        };
        let rings = header.rings.as_slice();
        let Some(ring) = rings.get(number) else {
            return false;
        };
        if is_event_ring(ring) {
            return false;
        }
        match self.rings.get(number) {
            Some(known) => known.stands_beside_free(&ring.shape, at),
            None => false,
        }
    }

    /// Whether a word lies in a range of bytes under lease: of an event segment, or of what belongs to no ring.
    fn is_in_range(&self, at: Addr) -> bool
        ensures { (h : HeaderValue) (k : Known) (memory : ℕ → ℕ) → FollowsTrace h k self.now memory → result ≡ list_any (covers h at 4) (open_ranges h k) }
    {
        is_in_segment(&self.events, at) || self.is_leased_beside_rings(at)
    }

    /// Whether only the controller may write a word: it is of an event segment or of a device context under lease (xHCI 4.9.4, 6.1).
    fn is_the_controllers(&self, at: Addr) -> bool
        ensures { (h : HeaderValue) (k : Known) (memory : ℕ → ℕ) → FollowsTrace h k self.now memory → result ≡ is_the_controllers h k at }
    {
        is_in_segment(&self.events, at) || self.contexts.touches(at.get(), 4)
    }

    /// Whether a word is under lease, where it is known whether a lease of its ring has it: it is of a ring, the segment table,
    /// an input context, an entry of the DCBAA or a device context (xHCI 4.9.2, 4.9.4, 4.6.5, 6.1).
    #[inline(always)]
    fn is_leased(&self, at: Addr, is_lent: bool) -> bool
        ensures { (h : HeaderValue) (k : Known) (memory : ℕ → ℕ) → FollowsTrace h k self.now memory → is_lent ≡ rings_have h k at → result ≡ is_leased h k at }
    {
        is_lent || self.is_leased_beside_rings(at)
    }

    /// Whether a word is of the segment table, an input context, an entry of the DCBAA or a device context under lease.
    #[inline(always)]
    fn is_leased_beside_rings(&self, at: Addr) -> bool
        ensures { (h : HeaderValue) (k : Known) (memory : ℕ → ℕ) → FollowsTrace h k self.now memory → result ≡ others_have h k at }
    {
        self.is_in_table(at)
            || self.inputs.touches(at.get(), 4)
            || self.is_in_entry(at)
            || self.contexts.touches(at.get(), 4)
    }

    /// Whether the segment table is under lease and has a byte of the word (xHCI 6.5).
    fn is_in_table(&self, at: Addr) -> bool
        ensures { (h : HeaderValue) (k : Known) → FollowsRegisters k self.now.registers → FollowsEvents h k self.now.events → result ≡ table_has h k at }
    {
        match self.registers.value(Register::Erstba) {
            Some(value) => has_word(value / 64 * 64, table_entries(&self.events), at),
            None => false,
        }
    }

    /// Whether the word is of a DCBAA entry whose device context is under lease (xHCI 6.1).
    fn is_in_entry(&self, at: Addr) -> bool
        ensures { (h : HeaderValue) (k : Known) → FollowsRegisters k self.now.registers → FollowsDevices k self.now.devices → result ≡ entries_have h k at }
    {
        let base = self.registers.value(Register::Dcbaap).unwrap_or(0) / 64 * 64;
        let address = at.get();
        if address < base {
            return false;
        }
        let slot = (address - base) / 8;
        if slot == 0 || slot > 255 {
            return false;
        }
        self.devices.device(slot as u8).is_some()
    }
}

/// Whether a word is another but for the Chain bit, which it lacks.
fn clears_chain(standing: u32, word: u32) -> bool
    ensures { result ≡ clears_chain standing word }
{
    standing / CHAIN % 2 == 1 && standing - CHAIN == word
}

/// Whether a word is of an event segment.
fn is_in_segment(events: &Option<EventPlace>, at: Addr) -> bool
    ensures { (h : HeaderValue) (k : Known) → FollowsEvents h k events.now → result ≡ list_any (covers h at 4) (segment_ranges h) }
{
    match events {
        None => false,
        Some(events) => events.shape().overlaps(at.get(), 4),
    }
}

/// Whether so many entries of 16 bytes from the address of a word on have a byte of a word.
fn has_word(base: u64, entries: u64, at: Addr) -> bool
    requires aligned { base % 4 ≡ 0 }
    ensures { result ≡ overlap at 4 base (16 * entries) }
{
    let address = at.get();
    address >= base && (address - base) / 16 < entries
}

/// How many entries the segment table has, of 16 bytes each.
fn table_entries(events: &Option<EventPlace>) -> u64
    ensures { (h : HeaderValue) (k : Known) → FollowsEvents h k events.now → 16 * result ≡ table_bytes (event_shape h) }
{
    match events {
        None => 0,
        Some(events) => events.shape().segments().len() as u64,
    }
}
