// The ends of rulings that others join.
#![tactic(auto)]

pub mod ends;
