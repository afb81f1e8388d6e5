//! The rings that are there behind rows, without one that is late.
ghost use Rattle.std.specs.Prelude.{◌≡◌, ◌==◌, ◌++◌, ◌∷◌, [], IfOk, OnOk, filter, not, option_map, reverse};
ghost use Rattle.traces.specs.declared.header.Header.{Header as HeaderValue};
ghost use Rattle.traces.specs.LivingRings.{header_after};
ghost use Rattle.replayer.specs.Schedules.Making.{rings_at};
ghost use Rattle.ring_knowledge.specs.Histories.{header_now};
ghost use Rattle.replayer.specs.Schedules.Eager.{is_late, rings_looked_at, wakes, without_late};

use std::alloc::{AllocError, Global};
use traces::{Header, Register, Ring, Row};

/// Whether a ring is the one that is late.
fn is_late(late: Option<&Ring>, ring: &Ring) -> bool
    ensures { result ≡ is_late (option_map (λ other. other.now) late.entry) ring.now }
{
    match late {
        Some(late) => ring.id == late.id,
        None => false,
    }
}

/// The rings before the first row, without one that is late.
pub(crate) fn prompt_rings<'t>(
    alloc: Global,
    header: &'t Header,
    late: Option<&Ring>,
) -> Result<Vec<&'t Ring>, AllocError>
    ensures { IfOk result (λ prompt. rings_at prompt.items ≡ (without_late header.now (option_map (λ ring. ring.now) late.entry)).rings) }
{
    let mut prompt = Vec::new(alloc);
    for ring in header.rings.as_slice() {
        if !is_late(late, ring) {
            add_ring(&mut prompt, ring)?;
        }
    }
    Ok(prompt)
}

/// The rings that are there behind a row, where these are there before it.
pub(crate) fn follow_rings<'t>(rings: &mut Vec<&'t Ring>, row: &'t Row) -> Result<(), AllocError>
    ensures { OnOk result ((h : HeaderValue) → rings_at rings.old.items ≡ h.rings → rings_at rings.new.items ≡ (header_after h row.now).rings) }
{
    match row {
        Row::Ring { ring } => add_ring(rings, ring.as_ring())?,
        Row::Free { ring: id } => drop_ring(rings, *id),
        _ => {}
    }
    Ok(())
}

/// The ring with this ID isn't there any more.
fn drop_ring<'t>(rings: &mut Vec<&'t Ring>, id: u8)
    ensures { rings_at rings.new.items ≡ filter (λ ring. not (ring.id == id)) (rings_at rings.old.items) }
{
    rings.retain(|ring| ring.id != id);
}

/// The rings that are there behind rows.
pub(crate) fn rings_behind<'t>(
    alloc: Global,
    header: &'t Header,
    rows: &'t [Row],
) -> Result<Vec<&'t Ring>, AllocError>
    ensures { IfOk result (λ rings. rings_at rings.items ≡ (header_now header.now (reverse rows.now)).rings) }
{
    let mut rings = prompt_rings(alloc, header, None)?;
    for row in rows {
        follow_rings(&mut rings, row)?;
    }
    Ok(rings)
}

/// Whether a controller may look at more rings behind the row than before: a doorbell makes one active, and R/S lets those go on that were.
fn wakes(row: &Row) -> bool
    ensures { result ≡ wakes row.now }
{
    matches!(
        row,
        Row::Bell { .. }
            | Row::Reg {
                register: Register::Usbcmd,
                ..
            }
    )
}

/// The rings that a controller looks at behind a row.
#[tactic(auto, unfolding(crate::specs::Schedules::Eager::rings_looked_at))]
pub(crate) fn looked_rings<'a, 't>(
    prompt: &'a [&'t Ring],
    active: &'a [&'t Ring],
    row: &Row,
) -> &'a [&'t Ring]
    ensures { (h : HeaderValue) → rings_at prompt.now ≡ h.rings → rings_at result.now ≡ rings_looked_at h (rings_at active.now) row.now }
{
    if wakes(row) { prompt } else { active }
}

/// Adds a ring.
pub(crate) fn add_ring<'r>(rings: &mut Vec<&'r Ring>, ring: &'r Ring) -> Result<(), AllocError>
    ensures { OnOk result (rings_at rings.new.items ≡ rings_at rings.old.items ++ ring.now ∷ []) }
{
    rings.push(ring)?;
    Ok(())
}
