ghost use Rattle.std.specs.Prelude.{◌≡◌, ℕ, ◌==◌, ◌&&◌, ◌||◌, false, not};
ghost use Rattle.trace_record.specs.RingSets.{has};

/// A set of rings by their IDs.
#[derive(Clone, Copy, Debug)]
pub struct RingSet {
    marks: [bool; 256],
}

impl RingSet {
    /// No rings.
    pub fn new() -> RingSet
        ensures { (r : ℕ) → has result r ≡ false }
    {
        RingSet {
            marks: [false; 256],
        }
    }

    /// Whether the ring is among them.
    pub fn contains(&self, ring: u8) -> bool
        ensures { result ≡ has self.now ring }
    {
        self.marks[usize::from(ring)]
    }

    /// The ring is among them from now on.
    pub fn insert(&mut self, ring: u8)
        ensures { (r : ℕ) → has self.new r ≡ (ring == r || has self.old r) }
    {
        self.marks[usize::from(ring)] = true;
    }

    /// The ring is no longer among them.
    pub fn remove(&mut self, ring: u8)
        ensures { (r : ℕ) → has self.new r ≡ (not (ring == r) && has self.old r) }
    {
        self.marks[usize::from(ring)] = false;
    }
}
