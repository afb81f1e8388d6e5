//! How the Command Ring stands (xHCI 4.6.1, 4.9.3).
ghost use Rattle.std.specs.Prelude.{◌≡◌, not};
ghost use Rattle.segments.specs.ShapeValue.{Shape};
ghost use Rattle.segments.specs.RingView.{RingView};
ghost use Rattle.traces.specs.AllowedHeaders.{IsHeader};
ghost use Rattle.ring_knowledge.specs.Known.{Known};
ghost use Rattle.ring_knowledge.specs.RingRecords.{FollowsRing};
ghost use Rattle.ownership_rules.specs.Events.{may_be_taken};
ghost use Rattle.ownership_rules.specs.Registers.{has_gap, is_used, is_value};
ghost use Rattle.trace_record.specs.Premises.{StartedIsThere};
ghost use Rattle.trace_record.specs.RingFinder.Finding.{IsFinder};
ghost use Rattle.trace_record.specs.RingFinder.RecordsOfRings.{FollowsRings};

use crate::ring_finder::Finder;
use crate::trace_record::TraceRecord;
use ring_knowledge::RingRecord;
use traces::Header;

impl TraceRecord {
    /// Whether the controller may have come to the next command.
    pub fn may_be_taken(&self, header: &Header, finder: &Finder) -> bool
        requires headed { IsHeader header.now }
        requires found { IsFinder header.now.rings finder.now }
        ensures { (k : Known) → FollowsRings header.now k self.now.rings.items → StartedIsThere header.now k → result ≡ may_be_taken header.now k }
    {
        let Some(number) = finder.commands else {
            return false;
        };
        match self.rings.get(number) {
            Some(known) => known.floor_number() < known.ceiling(),
            None => false,
        }
    }

    /// Whether the Command Ring was started since it came: its doorbell was rung.
    pub fn is_used(&self, header: &Header, finder: &Finder) -> bool
        requires headed { IsHeader header.now }
        requires found { IsFinder header.now.rings finder.now }
        ensures { (k : Known) → FollowsRings header.now k self.now.rings.items → StartedIsThere header.now k → result ≡ is_used header.now k }
    {
        let Some(number) = finder.commands else {
            return false;
        };
        match self.rings.get(number) {
            Some(known) => was_started(known),
            None => false,
        }
    }

    /// Whether a TRB of the Command Ring was handed over behind one that wasn't.
    pub fn has_gap(&self, header: &Header, finder: &Finder) -> bool
        requires headed { IsHeader header.now }
        requires found { IsFinder header.now.rings finder.now }
        ensures { (k : Known) → FollowsRings header.now k self.now.rings.items → result ≡ has_gap header.now k }
    {
        let Some(number) = finder.commands else {
            return false;
        };
        let rings = header.rings.as_slice();
        let ring = &rings[number];
        match self.rings.get(number) {
            Some(known) => known.has_gap(&ring.shape),
            None => false,
        }
    }
}

/// Whether a ring isn't held at its beginning any more.
fn was_started(known: &RingRecord) -> bool
    ensures { (shape : Shape) (v : RingView) → FollowsRing shape v known.now → result ≡ not (is_value 0 v.held) }
{
    known.is_open() || known.ceiling() != 0
}
