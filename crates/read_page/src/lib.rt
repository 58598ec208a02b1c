// Rulings and tables, boxes and grids of a page that passed its questions: the stages one after the other.
#![tactic(auto)]

pub mod marks;
pub mod rules;
