// Rule pieces joined to rulings, each with its contrast.
#![tactic(auto)]

pub mod segments;
