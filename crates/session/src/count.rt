// Counting the quads of a source between two marks.
ghost use Rattle.quads.specs.Counts.{capped};
ghost use Rattle.quads.specs.Listings.{matching, not_below};
ghost use Rattle.quads.specs.Marks.{between, right_after};
ghost use Rattle.std.specs.Prelude.{◌≡◌, ◌≤◌, length};

use ordered::Ordered;
use quads::{MAX_COUNT, MAX_ID, Mark, Pattern, Quad, QuadSource};

// The mark right after a quad of a source.
#[tactic(auto, unfolding(quads::specs::Marks::right_after))]
pub(crate) fn right_after(quad: Quad) -> Mark
    requires { quad.g ≤ 1048576 }
    ensures { result ≡ right_after quad }
{
    Quad {
        g: quad.g + 1,
        ..quad
    }
}

// A mark that every quad of a source is below.
const TOP: Mark = Quad {
    s: MAX_ID + 1,
    p: 0,
    o: 0,
    g: 0,
};

// How many quads of the source match the pattern, from the mark on.
pub(crate) fn count_from<S: QuadSource>(source: &S, pattern: Pattern, from: Mark) -> u32
    ensures { result ≡ capped (length (not_below from (matching (S.means source.now) pattern))) }
{
    count_between(source, pattern, from, TOP)
}

// How many quads of the source match the pattern, from one mark on and below another. The source and the pattern
// are parameters, and so are the marks: a struct of two of them would be made for a single call each time.
pub(crate) fn count_between<S: QuadSource>(
    source: &S,
    pattern: Pattern,
    from: Mark,
    to: Mark,
) -> u32
    ensures { result ≡ capped (length (between from to (matching (S.means source.now) pattern))) }
{
    let mut count = 0;
    let mut mark = from;
    while let Some(quad) = source.first(pattern, mark) {
        if !quad.is_below(&to) || count == MAX_COUNT {
            return count;
        }
        count += 1;
        mark = right_after(quad);
    }
    count
}
