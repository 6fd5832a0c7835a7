// What an order is, and the order of 64-bit numbers.
ghost use Rattle.ordered.specs.Order.{TotalOrder};
ghost use Rattle.ordered.specs.Numbers.{number_order, number_told};
ghost use Rattle.std.specs.Ordering.{partial_lt};
ghost use Rattle.std.specs.Prelude.{◌≡◌, Bool, nat_lt};

// A kind of entry that has a strict total order.
pub trait Ordered {
    // Whether the first entry is below the second.
    ghost below: { Self → Self → Bool };

    // What each kind shows once.
    ghost laws: { TotalOrder below };

    fn is_below(&self, other: &Self) -> bool
        ensures { result ≡ below self.now other.now };
}

// A kind of entry that has the order of the standard library too, and there it is the same one: `<` tells which entry is
// below the other.
pub trait OrderedByOrd: Ordered + Ord {
    ghost told: { (x y : Self) → partial_lt Self.partial_cmp x y ≡ Self.below x y };
}

impl Ordered for u64 {
    ghost below = { nat_lt };

    ghost laws = { number_order };

    fn is_below(&self, other: &u64) -> bool {
        *self < *other
    }
}

impl OrderedByOrd for u64 {
    ghost told = { number_told };
}
