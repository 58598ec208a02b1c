// Rule pieces: which touch, and the joining of all that do.
#![tactic(auto)]

pub mod touch;
