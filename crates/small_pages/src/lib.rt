// `detect` of a small page: its lists lie on the stack, and the answer is a value.
#![tactic(auto)]

pub mod found;
