// The plain list: a quad source over quads in host memory.
ghost use Rattle.ordered.specs.Lists.{each};
ghost use Rattle.ordered.specs.Order.{strictly_ascends};
ghost use Rattle.quads.specs.Quads.{has_ids, quad_below};
ghost use Rattle.std.specs.Prelude.{◌≡◌, true};

use crate::quad::Quad;

// Quads that ascend strictly and whose numbers are IDs; `PlainList::new` makes one of any quads.
#[derive(Drop)]
pub struct PlainList<'a> {
    pub(crate) quads: &'a [Quad],
    ghost ascending: { strictly_ascends quad_below quads.now ≡ true },
    ghost ids: { each has_ids quads.now ≡ true },
}
