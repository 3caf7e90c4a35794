// Total orders with a least element.
ghost use Rattle.std.specs.Prelude.{◌≡◌, Bool, true, false, nat_le};
ghost use Rattle.std.proofs.Common.{rules};

// An order is known by its laws alone: the filter's proof uses nothing else of it. It is not std's `Ord`, which asks that what
// compares as equal is `==`, while two samples with one time and two packet numbers are not; nor has std a least element.
pub trait TotalOrder {
    ghost at_most: { Self → Self → Bool };

    ghost bottom: { Self };

    fn least() -> Self
        ensures { result ≡ bottom };

    fn at_most(&self, other: &Self) -> bool
        ensures { result ≡ at_most self.now other.now };

    ghost reflexive: { (x : Self) → at_most x x ≡ true };

    ghost transitive: { (x y z : Self) → at_most x y ≡ true → at_most y z ≡ true → at_most x z ≡ true };

    ghost total: { (x y : Self) → at_most x y ≡ false → at_most y x ≡ true };

    ghost lowest: { (x : Self) → at_most bottom x ≡ true };
}

impl TotalOrder for u64 {
    ghost at_most = { nat_le };

    ghost bottom = { 0 };

    ghost reflexive = { Prim.search rules };

    ghost transitive = { Prim.search rules };

    ghost total = { Prim.search rules };

    ghost lowest = { Prim.search rules };

    fn least() -> u64 {
        0
    }

    fn at_most(&self, other: &u64) -> bool {
        *self <= *other
    }
}
