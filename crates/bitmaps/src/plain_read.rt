// Reading a row of plain bits from words that may go on after it.
ghost use Rattle.bitmaps.specs.PlainRoom.{room_told};
ghost use Rattle.bitmaps.specs.BitRows.{HasBitRow};
ghost use Rattle.bitmaps.specs.PlainMeaning.{plain_bits};
ghost use Rattle.bitmaps.specs.PlainRows.{plain_words, plain_room, plain_bits_in, plain_read};
ghost use Rattle.bits.specs.StoredRows.{room_taken};
ghost use Rattle.bits.specs.Words.{spare_zero};
ghost use Rattle.std.specs.Prelude.{◌≡◌, ◌*◌, ◌≤◌, IfOk, length};

use crate::fault::BitsFault;
use crate::plain::PlainBits;
use crate::plain_check::tells_ones;
use bits::{BareBits, MAX_LEN, StoredRow};

impl<'a> PlainBits<'a> {
    // The row at the front of the words and how many of them it takes, or the first fault.
    #[tactic(auto, using(std::proofs::lemmas::Bool::Decides::nat_tests, crate::proofs::PlainReading::bits_cut, crate::proofs::PlainReading::directory_cut), unfolding(crate::specs::PlainRows::plain_read))]
    fn parse(words: &'a [u64]) -> Result<(PlainBits<'a>, usize), BitsFault>
        ensures room { room_taken result ≡ plain_read words.now }
        ensures bits { IfOk result (λ row. plain_bits row.0 ≡ plain_bits_in words.now) }
    {
        let first = *words.first().ok_or(BitsFault::Short)?;
        if first > MAX_LEN as u64 {
            return Err(BitsFault::TooManyBits);
        }
        let len = first as usize;
        let bits_end = 1 + len.div_ceil(64);
        let blocks = len.div_ceil(512);
        if words.len() < bits_end + blocks {
            return Err(BitsFault::Short);
        }
        let bits = &words[1..bits_end];
        let directory = &words[bits_end..bits_end + blocks];
        if !is_spare_zero(bits, len) {
            return Err(BitsFault::SpareBitSet);
        }
        if !tells_ones(bits, directory) {
            return Err(BitsFault::WrongContent);
        }
        let row = PlainBits {
            words: bits,
            directory,
            len,
        };
        Ok((row, bits_end + blocks))
    }
}

// Whether each bit of the words after the first ones, so many of them, is a zero. In a function of its own, by which the check
// proves `parse` alone.
fn is_spare_zero(words: &[u64], len: usize) -> bool
    requires { len ≤ 64 * length words.now }
    ensures { result ≡ spare_zero words.now len }
{
    BareBits::new(words, len).is_spare_zero()
}

impl<'a> StoredRow<'a> for PlainBits<'a> {
    type Fault = BitsFault;

    ghost HasRow = { HasBitRow };

    ghost words_of = { plain_words };

    ghost room_of = { λ bits. plain_room (length bits) };

    ghost items_in = { plain_bits_in };

    ghost reading = { plain_read };

    // By `parse`, so that the laws of reading are proved at one exit: the check does not find them at each exit of `parse`.
    fn read(words: &'a [u64]) -> Result<(PlainBits<'a>, usize), BitsFault> {
        PlainBits::parse(words)
    }

    fn empty() -> PlainBits<'a> {
        PlainBits {
            words: &[],
            directory: &[],
            len: 0,
        }
    }

    ghost room = { room_told };
}
