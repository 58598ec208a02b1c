// The shape of a set of rulings, and the limits by which it is a table.
#![tactic(auto)]

pub mod limits;
pub mod shape;
