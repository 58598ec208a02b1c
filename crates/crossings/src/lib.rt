// The closed sets that rulings make by touching.
#![tactic(auto)]

pub mod connect;
