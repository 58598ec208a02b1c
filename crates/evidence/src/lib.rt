// Evidence, log odds, and the finding of each kind, by value.
#![tactic(auto)]

pub mod finding;
pub mod kinds;
pub mod score;
