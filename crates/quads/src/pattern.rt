// Patterns: what a question fixes and what it leaves open.
ghost use Rattle.quads.specs.Patterns.{fits, matches, asks_ids, any_or_id};
ghost use Rattle.std.specs.Prelude.{◌≡◌};

use crate::quad::{Quad, is_id};

// One place of a pattern. By rule of the project an enum of its own, and no Option: another kind of place may join these.
#[derive(Clone, Copy, PartialEq, Eq, Debug)]
pub enum Place {
    Any,
    Given(u32),
}

impl Place {
    // Whether a quad with this number at the place can match. A given number that is no ID admits none.
    pub fn admits(self, n: u32) -> bool
        ensures { result ≡ fits self n }
    {
        match self {
            Place::Any => true,
            Place::Given(id) => is_id(id) && n == id,
        }
    }

    // Whether the place is open or gives an ID.
    pub fn is_any_or_id(self) -> bool
        ensures { result ≡ any_or_id self }
    {
        match self {
            Place::Any => true,
            Place::Given(id) => is_id(id),
        }
    }
}

// What is asked for: a place for each number of a quad.
#[derive(Clone, Copy, PartialEq, Eq, Debug)]
pub struct Pattern {
    pub s: Place,
    pub p: Place,
    pub o: Place,
    pub g: Place,
}

impl Pattern {
    // The pattern that leaves every place open.
    pub const ANY: Pattern = Pattern {
        s: Place::Any,
        p: Place::Any,
        o: Place::Any,
        g: Place::Any,
    };

    // Whether the quad has the given number at each given place.
    #[tactic(auto, unfolding(crate::specs::Patterns::matches))]
    pub fn matches(self, quad: Quad) -> bool
        ensures { result ≡ matches self quad }
    {
        self.s.admits(quad.s)
            && self.p.admits(quad.p)
            && self.o.admits(quad.o)
            && self.g.admits(quad.g)
    }

    // Whether every given number is an ID.
    #[tactic(auto, unfolding(crate::specs::Patterns::asks_ids))]
    pub fn gives_only_ids(self) -> bool
        ensures { result ≡ asks_ids self }
    {
        self.s.is_any_or_id()
            && self.p.is_any_or_id()
            && self.o.is_any_or_id()
            && self.g.is_any_or_id()
    }
}
