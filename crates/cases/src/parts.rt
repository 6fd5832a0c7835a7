// The four parts of a quad, and what is made with a number at one of them.
use quads::{Pattern, Place, Quad};
use std::fmt;

#[derive(Clone, Copy)]
pub(crate) enum Part {
    Subject,
    Predicate,
    Object,
    Graph,
}

impl Part {
    pub(crate) const ALL: [Part; 4] = [Part::Subject, Part::Predicate, Part::Object, Part::Graph];

    // The pattern that gives the number at this part and leaves the others open.
    pub(crate) fn only(self, number: u32) -> Pattern {
        let given = Place::Given(number);
        let open = Pattern::ANY;
        match self {
            Part::Subject => Pattern { s: given, ..open },
            Part::Predicate => Pattern { p: given, ..open },
            Part::Object => Pattern { o: given, ..open },
            Part::Graph => Pattern { g: given, ..open },
        }
    }

    // The quad with the number at this part.
    pub(crate) fn changed(self, quad: Quad, number: u32) -> Quad {
        match self {
            Part::Subject => Quad { s: number, ..quad },
            Part::Predicate => Quad { p: number, ..quad },
            Part::Object => Quad { o: number, ..quad },
            Part::Graph => Quad { g: number, ..quad },
        }
    }
}

// The part's place, counted from 0.
impl fmt::Display for Part {
    fn fmt<W: fmt::Write>(&self, f: &mut fmt::Formatter<W>) -> fmt::Result {
        write!(f, "{}", *self as u32)
    }
}
