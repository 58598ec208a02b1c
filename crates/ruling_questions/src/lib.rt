// The questions that `segments` puts, and the lists that it is lent.
#![tactic(auto)]

pub mod guard;
pub mod lent;
