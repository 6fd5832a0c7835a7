// Drawing the cases: a row of numbers that looks random and is the same in each run, and what is made of it. A match on a drawn
// number is a table of chances; tools/cases.py has the same numbers in the same order, and a list of closures would say no more.
ghost use Rattle.std.specs.Prelude.{◌<◌};

use crate::parts::Part;
use quads::{Mark, Pattern, Place, Quad};
use std::alloc::{AllocError, Global};
use std::array;

// The numbers of drawn quads: three for each list, ascending.
type Values = [u32; 3];

const VALUES: [Values; 4] = [
    [1, 2, 3],
    [1, 2, 1_048_576],
    [7, 1_048_575, 1_048_576],
    [1, 500, 501],
];

// Numbers that are no IDs.
const NO_IDS: [u32; 3] = [0, 1_048_577, 4_294_967_295];

// Whether a place of a pattern is open or given.
#[derive(Clone, Copy)]
pub(crate) enum Kind {
    Open,
    Given,
}

impl Kind {
    pub(crate) const BOTH: [Kind; 2] = [Kind::Open, Kind::Given];
}

#[derive(Drop)]
pub(crate) struct Draws {
    state: u32,
    // The numbers of the list that was drawn last, and of what is drawn for it.
    values: Values,
}

impl Draws {
    pub(crate) fn new(seed: u32) -> Draws {
        Draws {
            state: seed,
            values: VALUES[0],
        }
    }

    // A number below the bound, the next of the row; 0 where the bound is 0, and no Option, since every draw needs a number.
    pub(crate) fn below(&mut self, bound: u32) -> u32
        ensures { 0 < bound → result < bound }
    {
        self.state = self.state.wrapping_mul(1_103_515_245).wrapping_add(12_345) & 0x7fff_ffff;
        (self.state >> 8).checked_rem(bound).unwrap_or(0)
    }

    // One of these.
    fn pick(&mut self, numbers: [u32; 3]) -> u32 {
        numbers[self.below(3) as usize]
    }

    // Mostly one of the first three cursors, else any number up to 9.
    pub(crate) fn cursor(&mut self) -> u32 {
        if self.below(8) == 0 {
            self.below(10)
        } else {
            self.below(3)
        }
    }

    // A number for a part of a mark, on or around the values, or at an end of the 32-bit numbers: a table of chances.
    fn mark_number(&mut self) -> u32 {
        match self.below(8) {
            0 => 0,
            1 => u32::MAX,
            2 => self.pick(self.values).wrapping_add(1),
            3 => self.pick(self.values).wrapping_sub(1),
            _ => self.pick(self.values),
        }
    }

    pub(crate) fn mark(&mut self) -> Mark {
        Quad {
            s: self.mark_number(),
            p: self.mark_number(),
            o: self.mark_number(),
            g: self.mark_number(),
        }
    }

    // A place of this kind. A given one has mostly one of the values, now and then another ID, or a number that is
    // none: a table of chances.
    pub(crate) fn place(&mut self, kind: Kind) -> Place {
        match kind {
            Kind::Open => Place::Any,
            Kind::Given => Place::Given(match self.below(40) {
                0 => self.pick(NO_IDS),
                1 => 4,
                _ => self.pick(self.values),
            }),
        }
    }

    // A place that is open two times in three.
    fn any_place(&mut self) -> Place {
        if self.below(3) == 0 {
            self.place(Kind::Given)
        } else {
            Place::Any
        }
    }

    pub(crate) fn pattern(&mut self) -> Pattern {
        Pattern {
            s: self.any_place(),
            p: self.any_place(),
            o: self.any_place(),
            g: self.any_place(),
        }
    }

    // Chooses the numbers of a list, and answers all quads of them, in ascending order.
    fn all_quads(&mut self) -> [Quad; 81] {
        self.values = VALUES[self.below(4) as usize];
        let values = self.values;
        array::from_fn(|rank| Quad {
            s: values[rank / 27 % 3],
            p: values[rank / 9 % 3],
            o: values[rank / 3 % 3],
            g: values[rank % 3],
        })
    }

    // Some of the quads, in ascending order.
    pub(crate) fn list(&mut self, heap: Global) -> Result<Vec<Quad>, AllocError> {
        let quads = self.all_quads();
        let rarity = self.below(16) + 5;
        quads
            .into_iter()
            .filter(|_| self.below(rarity) == 0)
            .collect(heap)
    }

    // The same, with a few quads among them that may not stand there. A loop, since what is drawn for a quad decides how many go in.
    pub(crate) fn spoiled_list(&mut self, heap: Global) -> Result<Vec<Quad>, AllocError> {
        let mut list = Vec::new(heap);
        let quads = self.all_quads();
        let rarity = self.below(8) + 9;
        for quad in quads {
            if self.below(rarity) == 0 {
                list.push(quad)?;
                if self.below(9) == 0 {
                    list.push(self.spoiled(quad))?;
                }
            }
        }
        Ok(list)
    }

    // The same quad, or one that differs at one part: a table of chances.
    fn spoiled(&mut self, quad: Quad) -> Quad {
        let part = Part::ALL[self.below(4) as usize];
        match self.below(3) {
            0 => quad,
            1 => part.changed(quad, self.pick(NO_IDS)),
            _ => part.changed(quad, self.pick(self.values)),
        }
    }

    // As the list, with each quad up to three times.
    pub(crate) fn tied_list(&mut self, heap: Global) -> Result<Vec<Quad>, AllocError> {
        let mut list = Vec::new(heap);
        for quad in self.all_quads() {
            if self.below(16) == 0 {
                for _ in 0..self.below(4) {
                    list.push(quad)?;
                }
            }
        }
        Ok(list)
    }

    // A few numbers in any order.
    pub(crate) fn numbers(&mut self, heap: Global) -> Result<Vec<u64>, AllocError> {
        (0..self.below(9))
            .map(|_| u64::from(self.below(4)))
            .collect(heap)
    }

    // A few numbers that ascend, with ties.
    pub(crate) fn ascending_numbers(&mut self, heap: Global) -> Result<Vec<u64>, AllocError> {
        let mut numbers = self.numbers(heap)?;
        let mut last = 0u64;
        for number in numbers.iter_mut() {
            last = last.wrapping_add(*number);
            *number = last;
        }
        Ok(numbers)
    }
}
