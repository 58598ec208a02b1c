// The stored calls of float steps. No list has more than 128 floats.
use stored::floats::{bits_of, float_of};
use stored::words::Reader;

pub fn pairwise_sum(reader: &mut Reader<'_>) -> u64 {
    let mut values = [0.0f64; 128];
    let n = reader.list(&mut values, float_of);
    bits_of(sums::sum::pairwise_sum(&values[..n]))
}

pub fn round_output(reader: &mut Reader<'_>) -> u64 {
    bits_of(rounding::round_output(float_of(reader.word())))
}

// A whole number, in two's complement.
pub fn rounded_product(reader: &mut Reader<'_>) -> u64 {
    let a = float_of(reader.word());
    let b = float_of(reader.word());
    rounding::rounded_product(a, b).cast_unsigned()
}

pub fn round(reader: &mut Reader<'_>) -> u64 {
    bits_of(rounding::round(float_of(reader.word())))
}
