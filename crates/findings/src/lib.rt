// The findings of a page, from what was found on it: the keys and the findings of each kind.
#![tactic(auto)]

pub mod page;
pub mod places;
pub mod sources;
