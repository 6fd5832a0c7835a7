// IDs, places, patterns and counts at the numbers around their bounds.
use crate::parts::Part;
use crate::show::{Row, Spot, Test};
use quads::{Mark, Place, Quad, is_id, one_more};
use std::io;

pub(crate) const BOUNDS: [u32; 7] = [0, 1, 2, 1_048_575, 1_048_576, 1_048_577, 4_294_967_295];

// The mark that is below no other.
pub(crate) const HIGHEST: Mark = Quad {
    s: u32::MAX,
    p: u32::MAX,
    o: u32::MAX,
    g: u32::MAX,
};

const COUNTS: [u32; 4] = [0, 1, 4_294_967_294, 4_294_967_295];

pub(crate) fn run(rt: &impl Print) -> io::Result<()> {
    for number in BOUNDS {
        println!(rt; "id {number}: {}", Test(is_id(number)))?;
    }
    admits_line(rt, Place::Any)?;
    for number in BOUNDS {
        admits_line(rt, Place::Given(number))?;
    }
    for part in Part::ALL {
        for number in BOUNDS {
            part_line(rt, part, number)?;
        }
    }
    for count in COUNTS {
        println!(rt; "one more {count}: {}", one_more(count))?;
    }
    Ok(())
}

// Whether the place is open or an ID, and which of the numbers it admits.
fn admits_line(rt: &impl Print, place: Place) -> io::Result<()> {
    println!(rt;
        "admits {}: {}{}",
        Spot(place),
        Test(place.is_any_or_id()),
        Row(&BOUNDS.map(|number| Test(place.admits(number))))
    )
}

// At one part: whether a quad has IDs with the number there, whether the pattern that gives it gives only IDs, and which
// quads that pattern matches.
fn part_line(rt: &impl Print, part: Part, number: u32) -> io::Result<()> {
    let plain = Quad::new(1, 2, 3, 4);
    let pattern = part.only(number);
    println!(rt;
        "at {part} {number}: {} {}{}",
        Test(part.changed(plain, number).has_ids()),
        Test(pattern.gives_only_ids()),
        Row(&BOUNDS.map(|other| Test(pattern.matches(part.changed(plain, other)))))
    )
}
