ghost use Rattle.std.specs.Prelude.{◌≡◌, ◌%◌, ◌||◌, ℕ, Bool, OnOk};
ghost use Rattle.segments.specs.Places.{touches};

use crate::range_words::soiled::SoiledWords;
use segments::RingShape;
use std::alloc::AllocError;

impl SoiledWords {
    ghost use Rattle.trace_record.specs.RangeWords.Holding.{HoldsSoiled};

    /// The words of a ring of events are soiled: the controller wrote them. At want of memory some of them may be.
    pub fn soil_ring(&mut self, shape: &RingShape) -> Result<(), AllocError>
        ensures { OnOk result ((soiled : ℕ → Bool) → HoldsSoiled soiled self.old → HoldsSoiled (λ a. soiled a || touches shape.now a 4) self.new) }
    {
        let _places = shape.places();
        for segment in shape.segments() {
            self.soil(segment.base, 4 * u64::from(segment.count))?;
        }
        Ok(())
    }
}
