// Counts, which stop at 4,294,967,295.
ghost use Rattle.quads.specs.Counts.{capped};
ghost use Rattle.std.specs.Prelude.{◌≡◌, ◌+◌};

// Where a count stops.
pub const MAX_COUNT: u32 = 4_294_967_295;

// One more, as counts are answered.
#[tactic(auto, unfolding(crate::specs::Counts::capped))]
pub fn one_more(count: u32) -> u32
    ensures { result ≡ capped (count + 1) }
{
    count.saturating_add(1)
}
