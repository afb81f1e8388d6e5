//! The commands of the Command Ring: the one that a write gives, and the one that is finished next (xHCI 4.6).
ghost use Rattle.std.specs.Prelude.{◌≡◌, ◌≤◌, ℕ, IfSome};
ghost use Rattle.commands.specs.Command.{IsSaid};
ghost use Rattle.segments.specs.ShapeValue.{Shape};
ghost use Rattle.segments.specs.RingView.{RingView, floor_number};
ghost use Rattle.traces.specs.AllowedHeaders.{IsHeader};
ghost use Rattle.ring_knowledge.specs.Known.{Known};
ghost use Rattle.ring_knowledge.specs.RingRecords.{FollowsRing, IsFromFloor, positions_of};
ghost use Rattle.trace_record.specs.RingCommands.{command_in, command_on};
ghost use Rattle.trace_record.specs.RingFinder.Finding.{IsFinder};
ghost use Rattle.trace_record.specs.RingFinder.RecordsOfRings.{FollowsRings};
ghost use Rattle.trace_record.specs.RowPlaces.{IsNext};

use crate::ring_finder::Finder;
use crate::trace_record::TraceRecord;
use commands::{Command, SaidCommand};
use ring_knowledge::{RingGiving, RingRecord};
use traces::Header;

/// The command that is declared at a position of a ring, from its floor on.
pub fn declared_command(known: &RingRecord, position: u64) -> Option<SaidCommand>
    ensures { (shape : Shape) (v : RingView) → FollowsRing shape v known.now → floor_number v ≤ position → result ≡ command_in v.queue position }
{
    match known.declared(position) {
        Some(block) => SaidCommand::of(&block),
        None => None,
    }
}

/// The command that a write gives which gives this of the command ring, from its floor on.
pub(crate) fn given_command(known: &RingRecord, giving: Option<RingGiving>) -> Option<SaidCommand>
    ensures { (shape : Shape) (v : RingView) → FollowsRing shape v known.now → IsFromFloor v giving → result ≡ command_on v (positions_of giving) }
{
    match giving {
        Some(RingGiving::Position(position)) => declared_command(known, position),
        _ => None,
    }
}

/// The command itself, where one was read.
#[inline(always)]
pub fn command_said(said: Option<SaidCommand>) -> Option<Command>
    ensures same { result ≡ said }
    ensures said { IfSome result IsSaid }
{
    match said {
        Some(command) => Some(command.get()),
        None => None,
    }
}

impl TraceRecord {
    /// The command at the floor of the Command Ring: the one that is finished next.
    pub fn next_command(&self, header: &Header, finder: &Finder) -> Option<SaidCommand>
        requires headed { IsHeader header.now }
        requires found { IsFinder header.now.rings finder.now }
        ensures { (k : Known) → FollowsRings header.now k self.now.rings.items → IsNext header.now k result }
    {
        let Some(number) = finder.commands else {
            return None;
        };
        let Some(known) = self.rings.get(number) else {
            return None;
        };
        let next = known.floor_number();
        declared_command(known, next)
    }
}
