// Definitions and laws only: the float steps that document 01 names, as IEEE 754-2019 and The Rust Reference give their meaning.
// `rounding`, `select` and `sums` have the functions.
#![tactic(auto)]
