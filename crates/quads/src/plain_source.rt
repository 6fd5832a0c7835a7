// Making a plain list, and asking it.
ghost use Rattle.ordered.specs.Lists.{each, foremost};
ghost use Rattle.ordered.specs.Order.{strictly_ascends};
ghost use Rattle.quads.specs.Listings.{Listing};
ghost use Rattle.quads.specs.Quads.{has_ids, quad_below};
ghost use Rattle.quads.specs.PlainLists.{listed};
ghost use Rattle.quads.specs.Patterns.{matches};
ghost use Rattle.quads.specs.PlainMeaning.{plain_means, plain_ascending, plain_ids, GivesPlain};
ghost use Rattle.std.specs.Prelude.{◌≡◌, true, filter};

use crate::check::{ListRefusal, check_plain};
use crate::pattern::Pattern;
use crate::plain::PlainList;
use crate::quad::{Mark, Quad};
use crate::source::QuadSource;
use ordered::{Ordered, OrderedList};

impl<'a> TryFrom<&'a [Quad]> for PlainList<'a> {
    type Error = ListRefusal;

    ghost try_from_gives = { λ quads res. GivesPlain quads.now res };

    fn try_from(quads: &'a [Quad]) -> Result<PlainList<'a>, ListRefusal> {
        check_plain(quads)?;
        Ok(PlainList { quads })
    }
}

impl<'a> PlainList<'a> {
    // The plain list of these quads, or the empty one if some number is no ID or the order is not strict.
    pub fn new(quads: &'a [Quad]) -> PlainList<'a>
        ensures { plain_means result ≡ listed quads.now }
    {
        PlainList::try_from(quads).unwrap_or(PlainList {
            quads: &quads[0..0],
        })
    }
}

impl<'a> QuadSource for PlainList<'a> {
    ghost means = { plain_means };

    ghost ascending = { plain_ascending };

    ghost ids = { plain_ids };

    fn first(&self, pattern: Pattern, mark: Mark) -> Option<Quad> {
        let start = OrderedList::new(self.quads).first_not_below(&pattern.start(mark));
        first_match(&self.quads[start..], pattern)
    }
}

// The first of these ascending quads that matches, looked for no further than any can.
fn first_match(quads: &[Quad], pattern: Pattern) -> Option<Quad>
    requires ascending { strictly_ascends quad_below quads.now ≡ true }
    requires ids { each has_ids quads.now ≡ true }
    ensures { result ≡ foremost (filter (matches pattern) quads.now) }
{
    let highest = pattern.highest();
    for quad in quads {
        if pattern.matches(*quad) {
            return Some(*quad);
        }
        if highest.is_below(quad) {
            return None;
        }
    }
    None
}
