// The width at which numbers are packed.
ghost use Rattle.numbers.specs.NumberWords.{width_of};
ghost use Rattle.numbers.specs.NumbersIn.{IsWidth};
ghost use Rattle.std.specs.Prelude.{◌≡◌, [], ◌∷◌};

// The least width, from 1 on, at which the number has room, and so has each list of which it is the largest.
pub fn width_of(largest: u32) -> u32
    ensures alone { result ≡ width_of (largest ∷ []) }
    ensures list { IsWidth largest result }
{
    (u32::BITS - largest.leading_zeros()).max(1)
}
