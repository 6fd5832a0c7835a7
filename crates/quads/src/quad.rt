// Quads, IDs and marks, and the order of quads.
ghost use Rattle.quads.specs.Quads.{is_id, has_ids, quad_below, quad_of};
ghost use Rattle.std.specs.Prelude.{◌≡◌};

use ordered::{Ordered, OrderedByOrd};

// The largest ID; the least is 1.
pub const MAX_ID: u32 = 1_048_576;

// A statement of a dataset: subject, predicate, object, and the graph that it stands in. Quads are ordered by these four
// numbers, the first deciding.
#[derive(Clone, Copy, PartialEq, Eq, PartialOrd, Ord, Debug)]
pub struct Quad {
    pub s: u32,
    pub p: u32,
    pub o: u32,
    pub g: u32,
}

// Where a search begins: four numbers, ordered like a quad, that need be no IDs.
pub type Mark = Quad;

// Whether the number can stand for a term.
pub fn is_id(n: u32) -> bool
    ensures { result ≡ is_id n }
{
    (1..=MAX_ID).contains(&n)
}

impl Quad {
    // The mark that no quad is below.
    pub const LOWEST: Mark = Quad {
        s: 0,
        p: 0,
        o: 0,
        g: 0,
    };

    // The quad, or the mark, of these four numbers.
    pub const fn new(s: u32, p: u32, o: u32, g: u32) -> Quad
        ensures { result ≡ quad_of s p o g }
    {
        Quad { s, p, o, g }
    }

    // Whether all four numbers are IDs.
    #[tactic(auto, unfolding(crate::specs::Quads::has_ids))]
    pub fn has_ids(&self) -> bool
        ensures { result ≡ has_ids self.now }
    {
        is_id(self.s) && is_id(self.p) && is_id(self.o) && is_id(self.g)
    }
}

impl Ordered for Quad {
    ghost use Rattle.quads.specs.QuadOrder.{quad_order};

    ghost below = { quad_below };

    ghost laws = { quad_order };

    // Asking for the whole order is faster than `<`.
    #[tactic(auto, using(crate::proofs::Derived::cmp_told))]
    fn is_below(&self, other: &Quad) -> bool {
        self.cmp(other).is_lt()
    }
}

impl OrderedByOrd for Quad {
    ghost use Rattle.quads.specs.QuadTold.{quad_told};

    ghost told = { quad_told };
}
