// The first quad of a plain list that matches a pattern and is not below a mark, for each way to leave places open.
use crate::draws::{Draws, Kind};
use crate::numbers::HIGHEST;
use crate::show::{Quads, Row, Search, Shape};
use quads::{Pattern, PlainList, Quad, QuadSource};
use std::io;

pub(crate) fn run(rt: &(impl Print + AllocGlobal)) -> io::Result<()> {
    let mut draws = Draws::new(303);
    for _ in 0..24 {
        let quads = draws.list(rt.alloc())?;
        println!(rt; "list{}", Quads(&quads))?;
        one_list(rt, &mut draws, &PlainList::new(&quads))?;
    }
    Ok(())
}

// The runtime and the draws are two parameters, here and in other files: what draws knows nothing of printing.
fn one_list(rt: &impl Print, draws: &mut Draws, list: &PlainList<'_>) -> io::Result<()> {
    for s in Kind::BOTH {
        for p in Kind::BOTH {
            for o in Kind::BOTH {
                for g in Kind::BOTH {
                    let pattern = Pattern {
                        s: draws.place(s),
                        p: draws.place(p),
                        o: draws.place(o),
                        g: draws.place(g),
                    };
                    first_line(rt, draws, list, pattern)?;
                }
            }
        }
    }
    Ok(())
}

// What is found from the lowest and the highest mark on, and from four drawn ones.
fn first_line(
    rt: &impl Print,
    draws: &mut Draws,
    list: &PlainList<'_>,
    pattern: Pattern,
) -> io::Result<()> {
    let marks = [
        Quad::LOWEST,
        HIGHEST,
        draws.mark(),
        draws.mark(),
        draws.mark(),
        draws.mark(),
    ];
    let found = marks.map(|mark| Search(mark, list.first(pattern, mark)));
    println!(rt; "first {}:{}", Shape(pattern), Row(&found))
}
