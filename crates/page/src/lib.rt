// A page, the questions that are put to it, and what is answered.
#![tactic(auto)]

pub mod answer;
pub mod counts;
pub mod given;
pub mod guard;
pub mod lent;
pub mod room;
