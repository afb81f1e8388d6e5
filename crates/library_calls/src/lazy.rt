ghost use Rattle.std.specs.Prelude.{IfOk};
ghost use Rattle.traces.specs.AllowedHeaders.{IsHeader};

use contexts::ContextSize;
use replayer::{Note, steps_of_notes};
use segments::{RingShape, Spot};
use std::alloc::Global;
use std::test::Fail;
use traces::{Header, Ring, Rings, Step, Version};
use trb::RingKind;

/// The command ring 0 and the transfer ring 2, each with three blocks and a Link.
fn two_rings(alloc: Global) -> Result<Header, Fail>
    ensures { IfOk result (λ h. IsHeader h) }
{
    let command = RingShape::new(alloc, RingKind::Cmd, &[(0x10000, 4)])?;
    let transfer = RingShape::new(alloc, RingKind::Xfer, &[(0x30000, 4)])?;
    Ok(Header {
        version: Version::One,
        context_size: ContextSize::Bytes32,
        rings: Rings::new(vec![in alloc;
            Ring {
                id: 0,
                shape: command
            },
            Ring {
                id: 2,
                shape: transfer
            },
        ]?),
    })
}

/// The ring that a step looks at.
fn ring_looked_at(step: &Step) -> Option<u8> {
    match *step {
        Step::Look { ring } => Some(ring),
        _ => None,
    }
}

/// A command is completed, then one that stops ring 2, which is placed anew, and then there are a success of it and a ring that the
/// header doesn't have.
fn some_notes(alloc: Global) -> Result<Vec<Note>, Fail> {
    // The prover knows the type of a note's part where the function names it.
    let _none: Option<Step> = None;
    let mut notes = Vec::new(alloc);
    notes.push(Note::Taken { ring: 0, behind: 1 })?;
    notes.push(Note::Next)?;
    notes.push(Note::StoppedOpen {
        commands: 0,
        behind: 2,
        ring: 2,
        need: 0,
    })?;
    notes.push(Note::Next)?;
    notes.push(Note::Placed {
        ring: 2,
        spot: Spot::Data(1),
    })?;
    notes.push(Note::Succeeded { ring: 2, behind: 3 })?;
    notes.push(Note::Taken { ring: 2, behind: 4 })?;
    notes.push(Note::Next)?;
    notes.push(Note::Taken { ring: 7, behind: 2 })?;
    Ok(notes)
}

#[test]
fn looks_as_far_as_is_needed(rt: HostRuntime) -> Result<(), Fail> {
    let alloc = rt.alloc();
    let header = two_rings(alloc)?;
    let notes = some_notes(alloc)?;
    let steps = steps_of_notes(alloc, header, &[], notes)?;
    let mut looks = Vec::new(alloc);
    for step in &steps {
        looks.push(ring_looked_at(step))?;
    }
    let expected = [
        Some(0),
        None,
        Some(0),
        Some(2),
        Some(2),
        Some(2),
        None,
        Some(2),
        Some(2),
        Some(2),
        Some(2),
        None,
        Some(7),
        Some(7),
    ];
    assert_eq!(rt; looks.as_slice(), expected.as_slice());
    Ok(())
}
