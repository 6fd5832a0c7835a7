// Reading a row of runs from words that may go on after it.
ghost use Rattle.bitmaps.specs.BitRows.{HasBitRow};
ghost use Rattle.bits.specs.StoredRows.{room_taken};
ghost use Rattle.runs.specs.RunMeaning.{run_bits};
ghost use Rattle.runs.specs.RunRows.{run_read, run_bits_in};
ghost use Rattle.runs.specs.RunRoom.{room_told};
ghost use Rattle.runs.specs.RunWords.{run_words, run_room};
ghost use Rattle.runs.specs.Runs.{runs_fit};
ghost use Rattle.std.specs.Prelude.{◌≡◌, IfOk};

use crate::run::Run;
use crate::view::RunBits;
use bitmaps::BitsFault;
use bits::{MAX_LEN, StoredRow};

// Whether the runs ascend, are not empty, neither touch nor overlap, and end within so many bits.
fn are_lawful(runs: &[u64], len: usize) -> bool
    ensures { result ≡ runs_fit 0 len runs.now }
{
    let mut from = 0;
    for word in runs {
        let run = Run::from(*word);
        if run.first < from || run.end == run.first || len < run.end {
            return false;
        }
        from = run.end + 1;
    }
    true
}

impl<'a> RunBits<'a> {
    // The row at the front of the words and how many of them it takes, or the first fault.
    #[tactic(auto, using(std::proofs::lemmas::Bool::Decides::nat_tests, crate::proofs::RunReading::runs_cut), unfolding(crate::specs::RunRows::run_read))]
    fn parse(words: &'a [u64]) -> Result<(RunBits<'a>, usize), BitsFault>
        ensures room { room_taken result ≡ run_read words.now }
        ensures bits { IfOk result (λ row. run_bits row.0 ≡ run_bits_in words.now) }
    {
        let [len, count, ..] = words else {
            return Err(BitsFault::Short);
        };
        if *len > MAX_LEN as u64 {
            return Err(BitsFault::TooManyBits);
        }
        if *count > *len {
            return Err(BitsFault::TooManyRuns);
        }
        let len = *len as usize;
        let end = 2 + *count as usize;
        if words.len() < end {
            return Err(BitsFault::Short);
        }
        let runs = &words[2..end];
        if !are_lawful(runs, len) {
            return Err(BitsFault::WrongContent);
        }
        Ok((RunBits { runs, len }, end))
    }
}

impl<'a> StoredRow<'a> for RunBits<'a> {
    type Fault = BitsFault;

    ghost HasRow = { HasBitRow };

    ghost words_of = { run_words };

    ghost room_of = { run_room };

    ghost items_in = { run_bits_in };

    ghost reading = { run_read };

    // By `parse`, so that the laws of reading are proved at one exit: the check does not find them at each exit of `parse`.
    fn read(words: &'a [u64]) -> Result<(RunBits<'a>, usize), BitsFault> {
        RunBits::parse(words)
    }

    fn empty() -> RunBits<'a> {
        RunBits { runs: &[], len: 0 }
    }

    ghost room = { room_told };
}
