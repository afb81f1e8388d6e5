ghost use Rattle.std.specs.Prelude.{◌≡◌, ◌<◌, ◌==◌, IfOk, IfSome, OnOk, length, position, remove};
ghost use Rattle.traces.specs.AllowedHeaders.{IsHeader};
ghost use Rattle.trace_record.specs.RingFinder.Finding.{IsFinder};
ghost use Rattle.traces.specs.LivingRings.{header_after, with_ring, without_ring};

use std::alloc::{AllocError, Global};
use trace_record::Finder;
use traces::{Header, Ring, Row};

/// The rings that are there behind a row.
pub(crate) fn follow_row(
    alloc: Global,
    header: &mut Header,
    finder: &mut Finder,
    row: &Row,
) -> Result<(), AllocError>
    requires found { IsFinder header.now.rings finder.now }
    requires then_headed { IsHeader (header_after header.now row.now) }
    ensures header { OnOk result (header.new ≡ header_after header.old row.now) }
    ensures found { OnOk result (IsFinder header.new.rings finder.new) }
{
    match row {
        Row::Ring { ring } => add_ring(header, finder, ring.as_ring()),
        Row::Free { ring: id } => {
            drop_ring(header, *id);
            *finder = Finder::new(alloc, header)?;
            Ok(())
        }
        _ => Ok(()),
    }
}

/// One ring more is there.
fn add_ring(header: &mut Header, finder: &mut Finder, ring: &Ring) -> Result<(), AllocError>
    requires found { IsFinder header.now.rings finder.now }
    requires then_headed { IsHeader (with_ring header.now ring.now) }
    ensures header { OnOk result (header.new ≡ with_ring header.old ring.now) }
    ensures found { OnOk result (IsFinder header.new.rings finder.new) }
{
    let copy = ring.copy()?;
    finder.add(header, &copy)?;
    header.rings.push(copy)?;
    Ok(())
}

/// The ring with this ID isn't there any more.
fn drop_ring(header: &mut Header, id: u8)
    ensures { header.new ≡ without_ring header.old id }
{
    for _ in 0..header.rings.as_slice().len() {
        match place_of(header, id) {
            None => return,
            Some(number) => drop_at(header, number),
        }
    }
}

/// Which ring is the first with this ID.
fn place_of(header: &Header, id: u8) -> Option<usize>
    ensures value { result ≡ position (λ r. r.id == id) header.now.rings }
    ensures below { IfSome result (λ n. n < length header.now.rings) }
{
    header
        .rings
        .as_slice()
        .iter()
        .position(|ring| ring.id == id)
}

/// The ring with this number isn't there any more.
fn drop_at(header: &mut Header, number: usize)
    requires { number < length header.old.rings }
    ensures { header.new ≡ record header.old { rings = remove header.old.rings number } }
{
    header.rings.remove(number);
}
