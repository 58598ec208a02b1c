// Sums of floats, halved and added up as the Rust does: of a list, and of the values at places of one.
#![tactic(auto)]

pub mod sum;
pub mod sum_at;
