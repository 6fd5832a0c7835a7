// Reading a row of plain numbers from words that may go on after it.
ghost use Rattle.bits.specs.StoredRows.{room_taken};
ghost use Rattle.numbers.specs.NumberWords.{HasNumbers, plain_number_words, plain_numbers_room};
ghost use Rattle.numbers.specs.PlainMeaning.{plain_numbers};
ghost use Rattle.numbers.specs.PlainNumberRows.{plain_numbers_read, numbers_after};
ghost use Rattle.numbers.specs.Rooms.{plain_takes};
ghost use Rattle.std.specs.Prelude.{◌≡◌, ◌↔◌, ◌<◌, ◌^◌, All, IfOk, IsTrue};

use crate::fault::NumbersFault;
use crate::plain::PlainNumbers;
use bits::{MAX_LEN, StoredRow};

// Whether each word is below 2^32.
fn are_below(words: &[u64]) -> bool
    ensures { IsTrue result ↔ All (λ word. word < 2 ^ 32) words.now }
{
    words.iter().all(|word| *word <= u32::MAX as u64)
}

impl<'a> PlainNumbers<'a> {
    // The row at the front of the words, and how many of them it takes, or the first fault.
    #[tactic(auto, unfolding(crate::specs::PlainNumberRows::plain_numbers_read))]
    fn parse(words: &'a [u64]) -> Result<(PlainNumbers<'a>, usize), NumbersFault>
        ensures room { room_taken result ≡ plain_numbers_read words.now }
        ensures numbers { IfOk result (λ read. plain_numbers read.0 ≡ numbers_after words.now) }
    {
        let [count, rest @ ..] = words else {
            return Err(NumbersFault::Short);
        };
        if *count > MAX_LEN as u64 {
            return Err(NumbersFault::TooManyNumbers);
        }
        let numbers = rest.get(..*count as usize).ok_or(NumbersFault::Short)?;
        if !are_below(numbers) {
            return Err(NumbersFault::WrongContent);
        }
        Ok((PlainNumbers { words: numbers }, 1 + numbers.len()))
    }
}

impl<'a> StoredRow<'a> for PlainNumbers<'a> {
    type Fault = NumbersFault;

    ghost HasRow = { HasNumbers };

    ghost words_of = { plain_number_words };

    ghost room_of = { plain_numbers_room };

    ghost items_in = { numbers_after };

    ghost reading = { plain_numbers_read };

    // By `parse`, so that the laws of reading are proved at one exit: the check does not find them at each exit of `parse`.
    fn read(words: &'a [u64]) -> Result<(PlainNumbers<'a>, usize), NumbersFault> {
        PlainNumbers::parse(words)
    }

    fn empty() -> PlainNumbers<'a> {
        PlainNumbers { words: &[] }
    }

    ghost room = { plain_takes };
}
