// Checking quads as a plain list, and the plain list of quads that were turned down.
use crate::draws::Draws;
use crate::numbers::BOUNDS;
use crate::parts::Part;
use crate::show::{Found, Quads, Verdict};
use quads::{Pattern, PlainList, Quad, QuadSource, check_plain};
use std::io;

const ONES: Quad = Quad {
    s: 1,
    p: 1,
    o: 1,
    g: 1,
};

const TWOS: Quad = Quad {
    s: 2,
    p: 2,
    o: 2,
    g: 2,
};

pub(crate) fn run(rt: &(impl Print + AllocGlobal)) -> io::Result<()> {
    line(rt, &[])?;
    line(rt, &[ONES, TWOS])?;
    line(rt, &[TWOS, ONES])?;
    line(rt, &[ONES, ONES])?;
    line(rt, &[TWOS, Quad::LOWEST])?;
    line(rt, &[TWOS, ONES, Quad::LOWEST])?;
    line(rt, &[ONES, TWOS, ONES, Quad::LOWEST])?;
    for part in Part::ALL {
        for number in BOUNDS {
            bounds_lines(rt, part.changed(TWOS, number))?;
        }
    }
    let mut draws = Draws::new(202);
    for _ in 0..300 {
        line(rt, &draws.spoiled_list(rt.alloc())?)?;
    }
    Ok(())
}

// The quad as the only one, as the last one and as a middle one.
fn bounds_lines(rt: &impl Print, quad: Quad) -> io::Result<()> {
    line(rt, &[quad])?;
    line(rt, &[ONES, quad])?;
    line(rt, &[TWOS, quad])?;
    line(rt, &[ONES, quad, TWOS])
}

// The verdict, and the first quads of the plain list that is made of the quads.
fn line(rt: &impl Print, quads: &[Quad]) -> io::Result<()> {
    let list = PlainList::new(quads);
    println!(rt;
        "check{}: {} {} {}",
        Quads(quads),
        Verdict(check_plain(quads)),
        Found(list.first(Pattern::ANY, Quad::LOWEST)),
        Found(list.first(Part::Subject.only(2), Quad::LOWEST))
    )
}
