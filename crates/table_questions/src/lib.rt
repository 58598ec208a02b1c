// The questions that `tables` puts.
#![tactic(auto)]

pub mod guard;
pub mod lent;
