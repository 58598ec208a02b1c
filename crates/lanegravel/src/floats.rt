// Float steps (crates `rounding` and `sums`).
ghost use Rattle.std.specs.Prelude.{◌≡◌};
ghost use Rattle.math.specs.Rounding.{round_away, rounded_product, round_output};
ghost use Rattle.math.specs.Sum.{pairwise_sum};

#[unsafe(no_mangle)]
pub extern "C" fn lanegravel_pairwise_sum(values: &[f64]) -> f64
    ensures { result ≡ pairwise_sum values.now }
{
    sums::sum::pairwise_sum(values)
}

#[unsafe(no_mangle)]
pub extern "C" fn lanegravel_round_output(x: f64) -> f64
    ensures { result ≡ round_output x }
{
    rounding::round_output(x)
}

#[unsafe(no_mangle)]
pub extern "C" fn lanegravel_rounded_product(a: f64, b: f64) -> i64
    ensures { result ≡ rounded_product a b }
{
    rounding::rounded_product(a, b)
}

#[unsafe(no_mangle)]
pub extern "C" fn lanegravel_round(x: f64) -> f64
    ensures { result ≡ round_away x }
{
    rounding::round(x)
}
