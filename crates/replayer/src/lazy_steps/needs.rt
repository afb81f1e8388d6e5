ghost use Rattle.std.specs.Prelude.{◌≡◌, ℕ, length, replicate};
ghost use Rattle.replayer.specs.LazySteps.Passes.{filled, need_before, with_need};
ghost use Rattle.replayer.specs.LazySteps.Tables.{IsTable};

use crate::lazy_steps::note::Note;

/// Fills into the notes how many blocks of their rings the notes behind them need.
pub(crate) fn fill_needs(notes: &mut [Note])
    ensures { notes.new ≡ filled notes.old }
{
    let mut needs = [0u64; 256];
    fill_back(notes, &mut needs);
}

/// The same, with a table of needs, by ring ID, that starts with zeros.
fn fill_back(notes: &mut [Note], needs: &mut [u64])
    requires { needs.old ≡ replicate 256 0 }
    ensures { notes.new ≡ filled notes.old }
{
    let mut left = notes.len();
    while left > 0 {
        let last = left - 1;
        let filled = filled_note(needs, &notes[last]);
        go_before(needs, &notes[last]);
        notes[last] = filled;
        left = last;
    }
}

/// The note with the needs of those behind it.
#[tactic(auto, unfolding(crate::specs::LazySteps::Passes::with_need))]
fn filled_note(needs: &[u64], note: &Note) -> Note
    requires { length needs.now ≡ 256 }
    ensures { (f : ℕ → ℕ) → IsTable needs.now f → result ≡ with_need f note.now }
{
    match *note {
        Note::StoppedAt {
            commands,
            behind,
            ring,
            spot,
            ..
        } => Note::StoppedAt {
            commands,
            behind,
            ring,
            spot,
            need: needs[usize::from(ring)],
        },
        Note::StoppedOpen {
            commands,
            behind,
            ring,
            ..
        } => Note::StoppedOpen {
            commands,
            behind,
            ring,
            need: needs[usize::from(ring)],
        },
        Note::Begun { .. }
        | Note::Succeeded { .. }
        | Note::Taken { .. }
        | Note::Made { .. }
        | Note::Next
        | Note::Placed { .. } => *note,
    }
}

/// What the notes from this one on need, from the needs of those behind it.
#[tactic(auto, unfolding(crate::specs::LazySteps::Passes::need_before))]
fn go_before(needs: &mut [u64], note: &Note)
    requires { length needs.old ≡ 256 }
    ensures size { length needs.new ≡ 256 }
    ensures needs { (f : ℕ → ℕ) → IsTable needs.old f → IsTable needs.new (λ r. need_before note.now r (f r)) }
{
    match *note {
        Note::Begun { ring } => needs[usize::from(ring)] = 0,
        Note::Succeeded { ring, behind } => {
            let known = needs[usize::from(ring)];
            if known < behind {
                needs[usize::from(ring)] = behind;
            }
        }
        Note::Taken { .. }
        | Note::StoppedAt { .. }
        | Note::StoppedOpen { .. }
        | Note::Made { .. }
        | Note::Next
        | Note::Placed { .. } => {}
    }
}
