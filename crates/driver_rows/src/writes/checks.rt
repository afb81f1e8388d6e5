ghost use Rattle.std.specs.Prelude.{◌≡◌, ℕ, false, None, IfOk, IfErr, IfSome, IfNone};
ghost use Rattle.segments.specs.ShapeValue.{Shape};
ghost use Rattle.traces.specs.AllowedHeaders.{IsHeader};
ghost use Rattle.traces.specs.declared.header.Header.{Header as HeaderValue};
ghost use Rattle.traces.specs.declared.row.Row.TheVariants.{Write};
ghost use Rattle.ring_knowledge.specs.Known.{Known};
ghost use Rattle.ring_knowledge.specs.RingRecords.{FollowsRing, IsFromFloor};
ghost use Rattle.trace_record.specs.RingFinder.Finding.{IsFinder};
ghost use Rattle.ownership_rules.specs.ByVersion.{writes_to_owned};
ghost use Rattle.ownership_rules.specs.FirstBroken.{first_broken};
ghost use Rattle.safety.specs.Keeps.{DriverKeeps};
ghost use Rattle.trace_record.specs.FollowsTrace.{FollowsTrace};
ghost use Rattle.trace_record.specs.Premises.{ContextsFit, FitsMemory};
ghost use Rattle.trace_record.specs.Steps.{IsLeast};
ghost use Rattle.trace_record.specs.RowPlaces.{IsPlacedSo};
ghost use Rattle.driver_rows.specs.ContextRules.Contents.{IsAligned, NamesLow};
ghost use Rattle.driver_rows.specs.MemoryWrites.WriteTests.{GivesOnPosition, IsDriver, given_tests, place_tests};
ghost use Rattle.driver_rows.specs.MemoryWrites.Allowed.{IsAllowed};

use crate::bindings::{awaits_binding, is_being_moved};
use crate::writes::crossings::crossing_refusal;
use crate::writes::given_commands::{command_refusal, given_command};
use crate::writes::positions::position_refusal;
use crate::writes::word_write::WordWrite;
use commands::Command;
use guest_memory::{Addr, WordMemory};
use ownership_rules::Refusal;
use ring_knowledge::{RingGiving, RingRecord};
use trace_record::{Finder, TraceRecord, is_event_ring};
use traces::{Header, Ring};

/// The ring that a write gives something of, what is kept of it, and the command that is given, if one is.
#[derive(Drop)]
struct OnRing<'a> {
    ring: &'a Ring,
    known: &'a RingRecord,
    command: Option<Command>,
}

/// Checks a write of memory before the stop: the command that it gives, if it gives one, or the least of the rules that it breaks.
pub fn check_write<M: WordMemory>(
    header: &Header,
    finder: &Finder,
    t: &TraceRecord,
    memory: &M,
    write: &WordWrite<'_>,
) -> Result<Option<Command>, Refusal>
    requires headed { IsHeader header.now }
    requires found { IsFinder header.now.rings finder.now }
    ensures ok { IfOk result (λ command. (k : Known) → FollowsTrace header.now k t.now (M.words memory.now) → DriverKeeps header.now k → ContextsFit header.now k → k.stopped ≡ false →
        IsPlacedSo header.now k write.now.at write.now.word write.now.place.now → write.now.owned ≡ writes_to_owned header.now k write.now.at write.now.word → IsAllowed header.now k write.now.at write.now.word command) }
    ensures fits { IfOk result (λ command. IfSome command (FitsMemory header.now.context_size)) }
    ensures refused { IfErr result (λ c. (k : Known) → FollowsTrace header.now k t.now (M.words memory.now) → DriverKeeps header.now k → ContextsFit header.now k → k.stopped ≡ false →
        IsPlacedSo header.now k write.now.at write.now.word write.now.place.now → write.now.owned ≡ writes_to_owned header.now k write.now.at write.now.word → IsLeast header.now k (Write write.now.at write.now.word) c) }
{
    if write.owned {
        return Err(Refusal::WriteToOwned);
    }
    let Some(number) = write.place.ring else {
        return Ok(None);
    };
    let rings = header.rings.as_slice();
    let Some(ring) = rings.get(number) else {
        return Ok(None);
    };
    let records = t.rings.as_slice();
    let Some(known) = records.get(number) else {
        return Ok(None);
    };
    if is_event_ring(ring) {
        return Err(Refusal::WriteToOwned);
    }
    let command = given_command(write.place);
    let given = OnRing {
        ring,
        known,
        command,
    };
    match giving_refusal(header, finder, t, memory, write, &given) {
        Some(refusal) => Err(refusal),
        None => Ok(command),
    }
}

/// Which rule a write breaks first that isn't to what the controller owns, where it gives this of a ring.
fn giving_refusal<M: WordMemory>(
    header: &Header,
    finder: &Finder,
    t: &TraceRecord,
    memory: &M,
    write: &WordWrite<'_>,
    given: &OnRing<'_>,
) -> Option<Refusal>
    requires headed { IsHeader header.now }
    requires found { IsFinder header.now.rings finder.now }
    requires driver { IsDriver given.now.ring.now.shape }
    requires aligned { IfSome given.now.command IsAligned }
    requires low { IfSome given.now.command NamesLow }
    requires quiet { GivesOnPosition write.now.place.now.giving given.now.command }
    ensures first { (k : Known) → FollowsTrace header.now k t.now (M.words memory.now) → DriverKeeps header.now k → ContextsFit header.now k →
        FollowsRing given.now.ring.now.shape (k.ring given.now.ring.now.id) given.now.known.now → IsFromFloor (k.ring given.now.ring.now.id) write.now.place.now.giving →
        result ≡ first_broken (given_tests header.now k given.now.ring.now (M.words memory.now) write.now.at write.now.word write.now.place.now.giving given.now.command) }
    ensures fits { IfNone result (IfSome given.now.command (FitsMemory header.now.context_size)) }
{
    match write.place.giving {
        None => None,
        Some(RingGiving::Crossing(q)) => {
            let awaits = awaits_binding(t, given.ring.id, given.known);
            crossing_refusal(&given.ring.shape, memory, write.at, write.word, awaits, q)
        }
        Some(RingGiving::Position(p)) => {
            let shape = &given.ring.shape;
            if let Some(refusal) = position_refusal(
                shape,
                given.known,
                memory,
                write.at,
                write.word,
                p,
            ) {
                return Some(refusal);
            }
            place_refusal(header, finder, t, memory, given)
        }
    }
}

/// Which rule of commands and moves the giving of a position breaks first, by which the command is given.
fn place_refusal<M: WordMemory>(
    header: &Header,
    finder: &Finder,
    t: &TraceRecord,
    memory: &M,
    given: &OnRing<'_>,
) -> Option<Refusal>
    requires headed { IsHeader header.now }
    requires found { IsFinder header.now.rings finder.now }
    requires aligned { IfSome given.now.command IsAligned }
    requires low { IfSome given.now.command NamesLow }
    ensures first { (k : Known) (shape : Shape) → FollowsTrace header.now k t.now (M.words memory.now) → DriverKeeps header.now k → ContextsFit header.now k →
        FollowsRing shape (k.ring given.now.ring.now.id) given.now.known.now → result ≡ first_broken (place_tests header.now k given.now.ring.now.id given.now.command) }
    ensures fits { IfNone result (IfSome given.now.command (FitsMemory header.now.context_size)) }
{
    match given.command {
        Some(command) => command_refusal(header, finder, t, memory, &command),
        None => block_refusal(t, given.ring.id, given.known),
    }
}

/// Which rule of moves and bindings the giving of a block breaks that is no command.
fn block_refusal(t: &TraceRecord, ring: u8, known: &RingRecord) -> Option<Refusal>
    ensures { (h : HeaderValue) (k : Known) (shape : Shape) (memory : ℕ → ℕ) → FollowsTrace h k t.now memory → FollowsRing shape (k.ring ring) known.now →
        result ≡ first_broken (place_tests h k ring None) }
{
    if is_being_moved(t, ring) {
        return Some(Refusal::Busy);
    }
    if awaits_binding(t, ring, known) {
        return Some(Refusal::Busy);
    }
    None
}
