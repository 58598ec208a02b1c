// Sign, smaller, larger and clamped values.
#![tactic(auto)]

ghost use Rattle.std.specs.Prelude.{◌≡◌, false};
ghost use Rattle.std.specs.Float.Ieee.{is_nan};
ghost use Rattle.std.specs.Float.Ieee.Scale as Scale;
ghost use Rattle.math.specs.Select.{absolute, negative, minimum_number, maximum_number, clamp_to};

// Neither a NaN nor an infinity. It and `abs` stand for the definitions that contracts name.
#[tactic(auto, using(crate::proofs::Words::finite_is))]
pub fn finite(x: f64) -> bool
    ensures { result ≡ Scale.finite x }
{
    x.is_finite()
}

// The second law is for a body with a case for zero: an edit of that case is refused for its value.
#[tactic(auto, using(crate::proofs::Words::size_is, crate::proofs::Words::zero_size))]
pub fn abs(x: f64) -> f64
    ensures { result ≡ absolute x }
{
    x.abs()
}

// The sign bit of a number.
#[tactic(auto, using(crate::proofs::Words::negative_is))]
fn is_negative(x: f64) -> bool
    requires { is_nan x ≡ false }
    ensures { result ≡ negative x }
{
    x.is_sign_negative()
}

// `f64::min`. The library's promises less: which of -0 and +0 it gives is left open.
pub fn min(x: f64, y: f64) -> f64
    ensures { result ≡ minimum_number x y }
{
    if x != x {
        y
    } else if y != y {
        x
    } else if x < y {
        x
    } else if y < x {
        y
    } else if is_negative(x) {
        x
    } else {
        y
    }
}

// `f64::max`. The library's promises less: which of -0 and +0 it gives is left open.
pub fn max(x: f64, y: f64) -> f64
    ensures { result ≡ maximum_number x y }
{
    if x != x {
        y
    } else if y != y {
        x
    } else if x < y {
        y
    } else if y < x {
        x
    } else if is_negative(x) {
        y
    } else {
        x
    }
}

// x clamped to ±limit: the bound when strictly past it. The library's asks more: that -limit is at most limit.
pub fn clamp(x: f64, limit: f64) -> f64
    ensures { result ≡ clamp_to limit x }
{
    if x < -limit {
        -limit
    } else if limit < x {
        limit
    } else {
        x
    }
}
