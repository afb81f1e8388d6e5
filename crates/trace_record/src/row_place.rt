ghost use Rattle.std.specs.Prelude.{◌≡◌, ℕ, None};
ghost use Rattle.trb.specs.Block.{kind};
ghost use Rattle.trb.specs.declared.kind.BlockKind.TheVariants.{CommandCompletion};
ghost use Rattle.traces.specs.AllowedHeaders.{IsHeader};
ghost use Rattle.ring_knowledge.specs.Known.{Known};
ghost use Rattle.trace_record.specs.RingFinder.Finding.{IsFinder};
ghost use Rattle.trace_record.specs.RingFinder.RecordsOfRings.{FollowsRings};
ghost use Rattle.trace_record.specs.FollowsTrace.{FollowsTrace};
ghost use Rattle.trace_record.specs.RowPlaces.{IsGivenBy, IsNext, IsPlaced, IsPlacedSo, command_of_place, with_command};

use crate::ring_commands::given_command;
use crate::ring_finder::{Finder, is_command_ring, is_event_ring};
use crate::trace_record::TraceRecord;
use commands::SaidCommand;
use guest_memory::Addr;
use ring_knowledge::RingGiving;
use traces::{Header, Row};
use trb::{Block, BlockKind};

/// What a row is about, found once: where the word lies that it writes, and the command that it gives or ends.
#[derive(Clone, Copy, Debug)]
pub struct RowPlace {
    /// The number in the header of the ring that has the word.
    pub ring: Option<usize>,
    /// Whether a lease of that ring has it: a block's, a Link's, or an event segment's.
    pub is_lent: bool,
    /// What the write gives of that ring, if it is a command or a transfer ring.
    pub giving: Option<RingGiving>,
    /// The command that the write gives; of a Command Completion Event the one that is finished next (xHCI 4.6).
    pub command: Option<SaidCommand>,
}

impl TraceRecord {
    /// Where the word lies that a row writes, and the command that the row gives or ends. Of another row: no ring, nothing lent,
    /// nothing given.
    #[inline(always)]
    pub fn place(&self, header: &Header, finder: &Finder, row: &Row) -> RowPlace
        requires headed { IsHeader header.now }
        requires found { IsFinder header.now.rings finder.now }
        ensures { (k : Known) (memory : ℕ → ℕ) → FollowsTrace header.now k self.now memory → IsPlaced header.now k row.now result }
    {
        match row {
            Row::Write { at, word } => self.write_place(header, finder, *at, *word),
            Row::Read { event } => RowPlace {
                ring: None,
                is_lent: false,
                giving: None,
                command: self.ended_command(header, finder, *event),
            },
            _ => RowPlace {
                ring: None,
                is_lent: false,
                giving: None,
                command: None,
            },
        }
    }

    /// Where a word lies that is written, and the command that its write gives.
    #[inline(always)]
    fn write_place(&self, header: &Header, finder: &Finder, at: Addr, word: u32) -> RowPlace
        requires headed { IsHeader header.now }
        requires found { IsFinder header.now.rings finder.now }
        ensures { (k : Known) → FollowsRings header.now k self.now.rings.items → IsPlacedSo header.now k at word result }
    {
        let mut place = self.word_place(header, finder, at, word);
        self.add_command(header, &mut place);
        place
    }

    /// Adds the command that a write gives which has this place.
    #[inline(always)]
    pub fn add_command(&self, header: &Header, place: &mut RowPlace)
        requires bare { place.old.command ≡ None }
        ensures { (k : Known) (at word : ℕ) → FollowsRings header.now k self.now.rings.items → IsPlacedSo header.now k at word (with_command place.old (command_of_place header.now k place.old)) →
            IsPlacedSo header.now k at word place.new }
    {
        if place.giving.is_some() {
            place.command = self.command_there(header, place);
        }
    }

    /// The command that a write gives which has this place and gives something of its ring: none but on the Command Ring.
    #[inline(always)]
    fn command_there(&self, header: &Header, place: &RowPlace) -> Option<SaidCommand>
        ensures { (k : Known) (at word : ℕ) → FollowsRings header.now k self.now.rings.items → IsGivenBy header.now k at word place.now.ring place.now.giving →
            result ≡ command_of_place header.now k place.now }
    {
        let Some(number) = place.ring else {
            return None;
        };
        let rings = header.rings.as_slice();
        let Some(ring) = rings.get(number) else {
            return None;
        };
        if !is_command_ring(ring) {
            return None;
        }
        match self.rings.get(number) {
            Some(known) => given_command(known, place.giving),
            None => None,
        }
    }

    /// Where a word lies, and what its write gives of its ring, but for a command. It stays out of `place`, which has nothing to do for most rows.
    #[inline(never)]
    pub fn word_place(&self, header: &Header, finder: &Finder, at: Addr, word: u32) -> RowPlace
        requires headed { IsHeader header.now }
        requires found { IsFinder header.now.rings finder.now }
        ensures placed { (k : Known) → FollowsRings header.now k self.now.rings.items → IsPlacedSo header.now k at word (with_command result (command_of_place header.now k result)) }
        ensures bare { result.command ≡ None }
    {
        let Some(number) = finder.ring_at(header, at.get()) else {
            return RowPlace {
                ring: None,
                is_lent: false,
                giving: None,
                command: None,
            };
        };
        let rings = header.rings.as_slice();
        let ring = &rings[number];
        if is_event_ring(ring) {
            return RowPlace {
                ring: Some(number),
                is_lent: true,
                giving: None,
                command: None,
            };
        }
        match self.rings.get(number) {
            Some(known) => {
                let standing = known.look(&ring.shape, at, word);
                RowPlace {
                    ring: Some(number),
                    is_lent: standing.is_lent,
                    giving: standing.giving,
                    command: None,
                }
            }
            None => RowPlace {
                ring: Some(number),
                is_lent: false,
                giving: None,
                command: None,
            },
        }
    }

    /// The command that ends with an event, if it is a Command Completion Event.
    #[inline(always)]
    fn ended_command(&self, header: &Header, finder: &Finder, event: Block) -> Option<SaidCommand>
        requires headed { IsHeader header.now }
        requires found { IsFinder header.now.rings finder.now }
        ensures { (k : Known) → FollowsRings header.now k self.now.rings.items → kind event ≡ CommandCompletion → IsNext header.now k result }
    {
        match event.kind() {
            BlockKind::CommandCompletion => self.next_command(header, finder),
            _ => None,
        }
    }
}
