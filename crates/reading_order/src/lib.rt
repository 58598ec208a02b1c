// The reading order of sets of boxes.
#![tactic(auto)]

pub mod reading;
