// The ordered list, over numbers and over quads.
use crate::draws::Draws;
use crate::show::{At, Dots, Quads, Row, Test};
use ordered::{Ordered, OrderedList};
use quads::Mark;
use std::{array, fmt, io};

const WIDE: [u64; 6] = [0, 1, 4_294_967_295, 4_294_967_296, u64::MAX, u64::MAX];

const WIDE_KEYS: [u64; 8] = [
    0,
    1,
    2,
    4_294_967_294,
    4_294_967_295,
    4_294_967_296,
    4_294_967_297,
    u64::MAX,
];

pub(crate) fn run(rt: &(impl Print + AllocGlobal)) -> io::Result<()> {
    numbers_line(rt, &[], &[0, 1, u64::MAX])?;
    numbers_line(rt, &[5], &[0, 4, 5, 6, u64::MAX])?;
    numbers_line(rt, &[5, 5, 5], &[4, 5, 6])?;
    numbers_line(rt, &[0, 0, 3, 3, 3, 9], &[0, 1, 2, 3, 4, 8, 9, 10])?;
    numbers_line(rt, &WIDE, &WIDE_KEYS)?;
    let mut draws = Draws::new(101);
    for _ in 0..60 {
        drawn_numbers(rt, &mut draws)?;
    }
    for _ in 0..40 {
        drawn_quads(rt, &mut draws)?;
    }
    for _ in 0..30 {
        let numbers = draws.numbers(rt.alloc())?;
        within_line(rt, &numbers, &[0, 1, 2, 3, 4, 5])?;
        let quads = draws.spoiled_list(rt.alloc())?;
        within_line(rt, &quads, &six_marks(&mut draws))?;
    }
    Ok(())
}

// Each of these keys with the place that is found by it, each after a space. The lists are searched while their answers are
// printed, here and below, so that no memory is asked for.
#[derive(Drop)]
struct Finds<'a, T>(OrderedList<'a, T>, &'a [T]);

impl<T: Ordered + Copy + fmt::Display + Drop> fmt::Display for Finds<'_, T> {
    fn fmt<W: fmt::Write>(&self, f: &mut fmt::Formatter<W>) -> fmt::Result {
        for key in self.1 {
            write!(f, " {}", At(*key, self.0.first_not_below(key)))?;
        }
        Ok(())
    }
}

// The place that is found by each of the list's own entries, each after a space.
#[derive(Drop)]
struct OwnPlaces<'a, T>(OrderedList<'a, T>);

impl<T: Ordered> fmt::Display for OwnPlaces<'_, T> {
    fn fmt<W: fmt::Write>(&self, f: &mut fmt::Formatter<W>) -> fmt::Result {
        for entry in self.0.entries {
            write!(f, " {}", self.0.first_not_below(entry))?;
        }
        Ok(())
    }
}

// Whether what is found by each of these keys is a place within the list or its length, each after a space.
#[derive(Drop)]
struct Within<'a, T>(OrderedList<'a, T>, &'a [T]);

impl<T: Ordered> fmt::Display for Within<'_, T> {
    fn fmt<W: fmt::Write>(&self, f: &mut fmt::Formatter<W>) -> fmt::Result {
        for key in self.1 {
            write!(
                f,
                " {}",
                Test(self.0.first_not_below(key) <= self.0.entries.len())
            )?;
        }
        Ok(())
    }
}

// The entries, and for each key the place of the first entry that is not below it.
fn numbers_line(rt: &impl Print, entries: &[u64], keys: &[u64]) -> io::Result<()> {
    println!(rt;
        "numbers{}:{}",
        Row(entries),
        Finds(OrderedList::new(entries), keys)
    )
}

fn drawn_numbers(rt: &(impl Print + AllocGlobal), draws: &mut Draws) -> io::Result<()> {
    let entries = draws.ascending_numbers(rt.alloc())?;
    let keys: [u64; 8] = array::from_fn(|_| u64::from(draws.below(16)));
    numbers_line(rt, &entries, &keys)
}

fn drawn_quads(rt: &(impl Print + AllocGlobal), draws: &mut Draws) -> io::Result<()> {
    let quads = draws.tied_list(rt.alloc())?;
    let list = OrderedList::new(&quads);
    let found = six_marks(draws).map(|mark| At(Dots(mark), list.first_not_below(&mark)));
    println!(rt; "quads{}:{}{}", Quads(&quads), OwnPlaces(list), Row(&found))
}

fn six_marks(draws: &mut Draws) -> [Mark; 6] {
    array::from_fn(|_| draws.mark())
}

// On entries in any order the answer is a place within the slice or its length.
fn within_line<T: Ordered>(rt: &impl Print, entries: &[T], keys: &[T]) -> io::Result<()> {
    println!(rt; "within{}", Within(OrderedList::new(entries), keys))
}
