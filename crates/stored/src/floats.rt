// Floats of stored calls. A float is the 16 digits of its bits; a NaN is 7ff8000000000000.

// A test goes before `from_bits`, since that asks for bits that are no NaN's.
pub fn float_of(bits: u64) -> f64 {
    if 0x7ff0_0000_0000_0000 < bits % 0x8000_0000_0000_0000 {
        f64::NAN
    } else {
        f64::from_bits(bits)
    }
}

pub fn bits_of(x: f64) -> u64 {
    if x.is_nan() {
        0x7ff8_0000_0000_0000
    } else {
        x.to_bits()
    }
}
