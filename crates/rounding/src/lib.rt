// Rounding to whole numbers, halves away from zero, and what is made of it.
#![tactic(auto)]

ghost use Rattle.std.specs.Prelude.{◌≡◌};
ghost use Rattle.std.specs.Float.Ieee.{to_signed};
ghost use Rattle.math.specs.Rounding.{round_away, rounded_product, round_output};

// x to the nearest whole number, halves away from zero; a zero keeps its sign. It stands for the definition that contracts name, as
// `to_i64` does. Each names laws that a right body by cases needs, so that an edit of one case is refused for its value.
#[tactic(auto, using(crate::proofs::Nearest::round_is, math::proofs::Rounded::neg_rounds))]
pub fn round(x: f64) -> f64
    ensures { result ≡ round_away x }
{
    x.round()
}

// Rust's `x as i64`: toward zero, the nearest end of the range where x is past it, 0 for a NaN.
#[tactic(auto, using(crate::proofs::Cast::cast_nan, crate::proofs::Ends::from_end))]
pub fn to_i64(x: f64) -> i64
    ensures { result ≡ to_signed 63 x }
{
    std::num::saturating_f64_to_i64(x)
}

// round(a * b) as a whole number: the form of each of document 01's limits.
pub fn rounded_product(a: f64, b: f64) -> i64
    ensures { result ≡ rounded_product a b }
{
    to_i64(round(a * b))
}

// x to six decimals, with no minus zero.
pub fn round_output(x: f64) -> f64
    ensures { result ≡ round_output x }
{
    let r = round(x * 1000000.0) / 1000000.0;
    if r == 0.0 { 0.0 } else { r }
}
