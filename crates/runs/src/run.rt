// A run of ones, from its word.
ghost use Rattle.runs.specs.Runs.{first_of, end_of};
ghost use Rattle.std.specs.Prelude.{◌≡◌};

// What the first place of a run is multiplied by in its word.
const PLACE_UNIT: u64 = 4_294_967_296;

// The places from the first one on and before the end.
#[derive(Clone, Copy)]
pub(crate) struct Run {
    pub(crate) first: usize,
    pub(crate) end: usize,
}

impl From<u64> for Run {
    ghost from_gives = { λ word run. (run.first ≡ first_of word) × (run.end ≡ end_of word) };

    fn from(word: u64) -> Run {
        let first = (word / PLACE_UNIT) as usize;
        let size = (word % PLACE_UNIT) as usize;
        Run {
            first,
            end: first + size,
        }
    }
}
