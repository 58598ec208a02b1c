// The lists of findings: a finding stored at its place.
#![tactic(auto)]

pub mod lent;
pub mod put;
