// Between which quads those that match a pattern lie.
ghost use Rattle.quads.specs.Spans.{number_or, filled, highest_of, start_of};
ghost use Rattle.std.specs.Prelude.{◌≡◌};

use crate::pattern::{Pattern, Place};
use crate::quad::{Mark, Quad};

impl Place {
    // The given number, or this one where the place is open.
    fn number_or(self, other: u32) -> u32
        ensures { result ≡ number_or self other }
    {
        match self {
            Place::Any => other,
            Place::Given(id) => id,
        }
    }
}

impl Pattern {
    // The given numbers, with this one at the open places.
    fn filled(self, other: u32) -> Mark
        ensures { result ≡ filled self other }
    {
        Quad::new(
            self.s.number_or(other),
            self.p.number_or(other),
            self.o.number_or(other),
            self.g.number_or(other),
        )
    }

    // A mark that no matching quad is above.
    pub(crate) fn highest(self) -> Mark
        ensures { result ≡ highest_of self }
    {
        self.filled(u32::MAX)
    }

    // Where to begin to look for the first match from a mark on.
    pub(crate) fn start(self, mark: Mark) -> Mark
        ensures { result ≡ start_of self mark }
    {
        self.filled(0).max(mark)
    }
}
