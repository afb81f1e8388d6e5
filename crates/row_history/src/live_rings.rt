//! The rings that are there: one comes, or one goes.
ghost use Rattle.std.specs.Prelude.{◌≡◌, ◌<◌, false, length, IfOk, OnOk};
ghost use Rattle.std.specs.List.{list_any};
ghost use Rattle.traces.specs.AllowedHeaders.{IsHeader, clash};
ghost use Rattle.trace_record.specs.RingFinder.Finding.{IsFinder};

use std::alloc::{AllocError, Global};
use trace_record::{Finder, is_command_ring, is_event_ring};
use traces::{Header, Ring, Rings};

/// Whether a ring can't stand beside one of these.
pub(crate) fn clashes_with_one(rings: &[Ring], ring: &Ring) -> bool
    ensures { result ≡ list_any (λ other. clash other ring.now) rings.now }
{
    rings.iter().any(|other| clashes(other, ring))
}

/// Whether two rings can't stand together.
fn clashes(other: &Ring, ring: &Ring) -> bool
    ensures { result ≡ clash other.now ring.now }
{
    other.id == ring.id
        || other.shape.overlaps_ring(&ring.shape)
        || is_command_ring(other) && is_command_ring(ring)
        || is_event_ring(other) && is_event_ring(ring)
}

/// A ring comes that clashes with none. After want of memory the finder is of no use.
pub(crate) fn add_ring(
    alloc: Global,
    header: &mut Header,
    finder: &mut Finder,
    ring: &Ring,
) -> Result<(), AllocError>
    requires headed { IsHeader header.now }
    requires clear { list_any (λ other. clash other ring.now) header.now.rings ≡ false }
    ensures headed { OnOk result (IsHeader header.new) }
    ensures found { OnOk result (IsFinder header.new.rings finder.new) }
{
    let _places = ring.shape.places();
    let ring = ring.copy()?;
    header.rings.push(ring)?;
    *finder = Finder::new(alloc, header)?;
    Ok(())
}

/// The ring with this number goes. After want of memory the finder is of no use.
pub(crate) fn remove_ring(
    alloc: Global,
    header: &mut Header,
    finder: &mut Finder,
    number: usize,
) -> Result<(), AllocError>
    requires headed { IsHeader header.now }
    requires there { number < length header.now.rings }
    ensures headed { OnOk result (IsHeader header.new) }
    ensures found { OnOk result (IsFinder header.new.rings finder.new) }
{
    header.rings.remove(number);
    *finder = Finder::new(alloc, header)?;
    Ok(())
}
