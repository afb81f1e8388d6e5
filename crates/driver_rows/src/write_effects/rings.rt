ghost use Rattle.std.specs.Prelude.{ℕ};
ghost use Rattle.traces.specs.AllowedHeaders.{IsHeader};
ghost use Rattle.ring_knowledge.specs.Known.{Known};
ghost use Rattle.ring_knowledge.specs.Writes.{with_word};
ghost use Rattle.trace_record.specs.RingFinder.RecordsOfRings.{FollowsRings};
ghost use Rattle.trace_record.specs.RowPlaces.{IsPlacedSo};

use ring_knowledge::RingRecord;
use trace_record::RowPlace;
use traces::Header;

/// The ring that has a word notes what its write gives of the ring, if it gives anything (xHCI 4.9.2).
#[inline(always)]
pub fn note_on_ring(header: &Header, records: &mut Vec<RingRecord>, place: &RowPlace)
    requires { IsHeader header.now }
    ensures { (k : Known) (at word : ℕ) → FollowsRings header.now k records.old.items → IsPlacedSo header.now k at word place.now →
        FollowsRings header.now (with_word header.now k at word) records.new.items }
{
    let Some(number) = place.ring else {
        return;
    };
    let rings = header.rings.as_slice();
    let Some(ring) = rings.get(number) else {
        return;
    };
    if let Some(known) = records.get_mut(number) {
        known.note_giving(&ring.shape, place.giving);
    }
}
