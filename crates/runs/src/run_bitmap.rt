// Reading bits told by their runs, and counting in them.
ghost use Rattle.runs.specs.RunMeaning.{run_bits};
ghost use Rattle.runs.specs.Runs.{first_of, run_after};
ghost use Rattle.std.specs.List.{slice_get};
ghost use Rattle.std.specs.Prelude.{◌≡◌};
ghost use Rattle.std.specs.Option.{option_map};

use crate::run::Run;
use crate::view::RunBits;
use bitmaps::CountedBitmap;
use bits::{BitRow, Row};

impl<'a> RunBits<'a> {
    // Which run is the first that ends after the place; past them all where none does.
    fn ended_by(&self, place: usize) -> usize
        ensures { slice_get self.now.runs.now result ≡ run_after self.now.runs.now place }
    {
        self.runs
            .partition_point(|word| Run::from(*word).end <= place)
    }

    // Where the first run that ends after the place begins, or none if none does.
    fn begin_after(&self, place: usize) -> Option<usize>
        ensures { result ≡ option_map first_of (run_after self.now.runs.now place) }
    {
        let word = self.runs.get(self.ended_by(place))?;
        Some(Run::from(*word).first)
    }
}

impl<'a> Row for RunBits<'a> {
    type Item = bool;

    ghost items = { run_bits };

    fn len(&self) -> usize {
        self.len
    }

    fn get(&self, place: usize) -> Option<bool> {
        if place >= self.len {
            return None;
        }
        Some(self.begin_after(place).is_some_and(|first| first <= place))
    }
}

impl<'a> BitRow for RunBits<'a> {
    ghost bits = { run_bits };

    fn len(&self) -> usize {
        Row::len(self)
    }

    fn bit(&self, place: usize) -> Option<bool> {
        self.get(place)
    }
}

impl<'a> CountedBitmap for RunBits<'a> {
    fn rank(&self, place: usize) -> usize {
        let mut count = 0;
        for word in self.runs {
            let run = Run::from(*word);
            if place < run.end {
                return count + place.saturating_sub(run.first);
            }
            count += run.end - run.first;
        }
        count
    }

    fn select(&self, nth: usize) -> Option<usize> {
        let mut before = nth.checked_sub(1)?;
        for word in self.runs {
            let run = Run::from(*word);
            let size = run.end - run.first;
            if before < size {
                return Some(run.first + before);
            }
            before -= size;
        }
        None
    }

    fn following(&self, place: usize) -> Option<usize> {
        if place >= self.len {
            return None;
        }
        let first = self.begin_after(place)?;
        Some(place.max(first))
    }
}
