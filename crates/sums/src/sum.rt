// `pairwise_sum`: of a list, and of what each entry of one gives.
ghost use Rattle.std.specs.Prelude.{◌≡◌, Float, map, All};
ghost use Rattle.math.specs.Constants.{zero};
ghost use Rattle.math.specs.Sum.{added_to, pairwise_sum};

// What each entry gives, added from 0.0, left to right.
fn add_up<T: Copy, F: Fn(T) -> f64>(xs: &[T], value: &F) -> f64
    requires { All (λ x. F.pre value.now x) xs.now }
    ensures { (v : T → Float) → ((x : T) (r : Float) → F.post value.now x r → r ≡ v x) → result ≡ added_to zero (map v xs.now) }
{
    let mut s = 0.0;
    for x in xs {
        s += value(*x);
    }
    s
}

// Up to 8 values are added from 0.0 left to right; a longer list is cut at half its length, rounded
// down, and each half summed the same way.
pub(crate) fn pairwise_sum_of<T: Copy, F: Fn(T) -> f64>(xs: &[T], value: &F) -> f64
    requires { All (λ x. F.pre value.now x) xs.now }
    ensures { (v : T → Float) → ((x : T) (r : Float) → F.post value.now x r → r ≡ v x) → result ≡ pairwise_sum (map v xs.now) }
{
    let n = xs.len();
    if n <= 8 {
        return add_up(xs, value);
    }
    let half = n / 2;
    pairwise_sum_of(&xs[..half], value) + pairwise_sum_of(&xs[half..], value)
}

// The same of the values themselves.
pub fn pairwise_sum(values: &[f64]) -> f64
    ensures { result ≡ pairwise_sum values.now }
{
    pairwise_sum_of(values, &|x| x)
}
