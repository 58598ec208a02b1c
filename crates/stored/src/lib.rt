// The words of stored calls: numbers, lists, floats, sides and settings in, answers out. tests/differential writes the
// calls; the programs that read them are `replay` and `replay_pages`.
#![tactic(auto)]

pub mod floats;
pub mod input;
pub mod settings;
pub mod sides;
pub mod words;
pub mod written;
