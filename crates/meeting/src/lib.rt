// What two rulings are to each other: whether they touch, and whether one joins an end of the other.
#![tactic(auto)]

pub mod segment;
