// The tests on one glyph box: is it a hollow square with four straight edges?
#![tactic(auto)]

mod edges;
pub mod found;
mod frame;
mod inner;
pub mod limits;
pub mod sizes;
