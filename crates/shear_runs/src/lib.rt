// Columns that share a shear, bands of rows, and runs of bytes: what levelling and its inverse go by.
#![tactic(auto)]

pub mod bands;
pub mod columns;
pub mod raster;
