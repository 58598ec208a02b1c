// The lists that are written of the rulings: the closed sets of pieces in the order of their rulings, and each ruling.
#![tactic(auto)]

pub mod keys;
pub mod ruling;
pub mod sets_of_pieces;
pub mod write;
