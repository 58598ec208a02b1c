// `pairwise_sum` of the values at some places of a list.
ghost use Rattle.std.specs.Prelude.{◌≡◌};
ghost use Rattle.math.specs.Sum.{pairwise_sum, values_at};
ghost use Rattle.math.specs.Steps.{PlacesIn};

use crate::sum::pairwise_sum_of;

// `pairwise_sum` of the values at some places, which need not be gathered for it.
pub fn pairwise_sum_at(values: &[f64], places: &[u32]) -> f64
    requires { PlacesIn values.now places.now }
    ensures { result ≡ pairwise_sum (values_at values.now places.now) }
{
    pairwise_sum_of(places, &|i| values[i as usize])
}
