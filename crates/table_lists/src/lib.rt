// The lists that are written of the closed sets: which are tables, what is found of each, and the free list.
#![tactic(auto)]

pub mod facts;
