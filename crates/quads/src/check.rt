// Checking that quads in host memory are a plain list.
ghost use Rattle.quads.specs.PlainLists.{is_plain, verdict, checked, rises_at, refusal_number, refusal_place};
ghost use Rattle.std.specs.Prelude.{◌≡◌, ◌<◌, length, is_ok};

use crate::quad::Quad;
use ordered::Ordered;

// Why quads are no plain list: the place of the first quad at fault, counted from 0.
#[derive(Clone, Copy, PartialEq, Eq, Debug)]
pub enum ListRefusal {
    // One of its numbers is no ID.
    NotAnId(usize),
    // It is not strictly above the quad before it.
    NotAscending(usize),
}

impl ListRefusal {
    // The refusal's number.
    pub fn number(self) -> u32
        ensures { result ≡ refusal_number self }
    {
        match self {
            ListRefusal::NotAnId(_) => 3,
            ListRefusal::NotAscending(_) => 4,
        }
    }

    // The place of the quad at fault, counted from 0.
    pub fn place(self) -> usize
        ensures { result ≡ refusal_place self }
    {
        match self {
            ListRefusal::NotAnId(place) | ListRefusal::NotAscending(place) => place,
        }
    }
}

// Whether every number is an ID and each quad is strictly above the one before; else the first quad at fault.
pub fn check_plain(quads: &[Quad]) -> Result<(), ListRefusal>
    ensures answer { verdict result ≡ checked quads.now }
    ensures test { is_ok result ≡ is_plain quads.now }
{
    for (place, quad) in quads.iter().enumerate() {
        if !quad.has_ids() {
            return Err(ListRefusal::NotAnId(place));
        }
        if !rises_at(quads, place) {
            return Err(ListRefusal::NotAscending(place));
        }
    }
    Ok(())
}

// Whether the quad at the place is strictly above the one before it, if there is one before it.
#[tactic(auto, unfolding(crate::specs::PlainLists::rises_at))]
fn rises_at(quads: &[Quad], place: usize) -> bool
    requires { place < length quads.now }
    ensures { result ≡ rises_at quads.now place }
{
    place == 0 || quads[place - 1].is_below(&quads[place])
}
