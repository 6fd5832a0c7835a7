// The trait of quad sources: whatever can be asked for the first quad that matches a pattern.
ghost use Rattle.ordered.specs.Lists.{each};
ghost use Rattle.ordered.specs.Order.{strictly_ascends};
ghost use Rattle.quads.specs.Listings.{Listing, first_from};
ghost use Rattle.quads.specs.Quads.{has_ids, quad_below};
ghost use Rattle.std.specs.Prelude.{◌≡◌, true};

use crate::pattern::Pattern;
use crate::quad::{Mark, Quad};

// A strictly ascending list of quads that can be asked, but not changed, through this.
pub trait QuadSource {
    // The quads that the source lists.
    ghost means: { Self → Listing };

    // The first quad that matches the pattern and is not below the mark, or none if there is none.
    fn first(&self, pattern: Pattern, mark: Mark) -> Option<Quad>
        ensures { result ≡ first_from (means self.now) pattern mark };

    // The laws, which each implementation shows: its quads ascend strictly, and all their numbers are IDs.
    ghost ascending: { (x : Self) → strictly_ascends quad_below (means x).quads ≡ true };

    ghost ids: { (x : Self) → each has_ids (means x).quads ≡ true };
}
