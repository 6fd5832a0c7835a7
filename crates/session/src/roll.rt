// Writing the numbers of the open cursors.
ghost use Rattle.session.specs.Rolls.{is_open, open_cursors, roll_outcome, RollWrote};
ghost use Rattle.session.specs.Outcomes.{RollLeft, of_count};
ghost use Rattle.std.specs.Prelude.{◌≡◌, ◌<◌, ◌≤◌, length, take, drop, count_by};

use crate::cursor::{State, Table};
use crate::refusal::Refusal;

impl State {
    fn is_open(self) -> bool
        ensures { result ≡ is_open self }
    {
        !matches!(self, State::Closed)
    }
}

impl Table {
    // How many cursors are open.
    fn count_open(&self) -> usize
        ensures { result ≡ count_by (λ c. is_open c.state) self.now.cursors }
    {
        self.cursors
            .iter()
            .map(|cursor| cursor.state.is_open() as usize)
            .sum()
    }

    // Writes the numbers of the open cursors at the front of the buffer, and answers how many. The count of the
    // places is the answer; a zip of the buffer with a filter of a zip of numbers and cursors would be no plainer.
    fn write_open(&self, buffer: &mut [u32]) -> usize
        requires { length (open_cursors self.now) ≤ length buffer.old }
        ensures count { result ≡ length (open_cursors self.now) }
        ensures front { take result buffer.new ≡ open_cursors self.now }
        ensures rest { drop result buffer.new ≡ drop result buffer.old }
    {
        let mut count = 0;
        for (number, cursor) in self.cursors.iter().enumerate() {
            if cursor.state.is_open() {
                buffer[count] = number as u32;
                count += 1;
            }
        }
        count
    }

    // Writes the numbers of the open cursors where there is room for them, and answers how many.
    pub(crate) fn roll(&self, buffer: &mut [u32]) -> Result<usize, Refusal>
        ensures answer { of_count result ≡ roll_outcome self.now (length buffer.old) }
        ensures wrote { RollWrote self.now buffer.new result }
        ensures rest { RollLeft result buffer.old buffer.new }
    {
        if buffer.len() < self.count_open() {
            return Err(Refusal::BufferShort);
        }
        Ok(self.write_open(buffer))
    }
}
