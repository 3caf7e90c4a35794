// The filter that took 5 in round 1, and then 3 in a later round.
ghost use Rattle.std.specs.Prelude.{◌≡◌};
ghost use Rattle.figures.specs.FilterFigures.{after_3, values_of};

use filter::min_max::MinMax;

// The values of the three choices after 3 in `round`.
pub fn choices_after(round: u64) -> (u64, u64, u64)
    ensures { result ≡ values_of (after_3 round) }
{
    let mut rates = MinMax::new();
    rates.update_max(1, 5);
    rates.update_max(round, 3);
    let (first, second, third) = rates.samples();
    (first.value, second.value, third.value)
}
