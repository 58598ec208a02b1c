// The settings, and document 01's questions about them: 2, and 7 to 13.
#![tactic(auto)]

pub mod pixels;
pub mod scan;
pub mod settings;
pub mod validate;
