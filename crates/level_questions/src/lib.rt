// The questions that `level_gray` and `unlevel` put.
#![tactic(auto)]

pub mod guard;
