// The paper beside a ruling: which pixels are its samples, and the level of them.
#![tactic(auto)]

ghost use Rattle.paper.specs.Pixels as Pixels;

use std::marker::Model;

pub mod areas;
pub mod level;
pub mod samples;

// A picture of w columns and h rows, row by row: a byte a pixel, and a darker one is a smaller number.
#[derive(Drop)]
pub struct Raster<'a> {
    pub pixels: &'a [u8],
    pub w: usize,
    pub h: usize,
}

impl<'a> Model for Raster<'a> {
    ghost Value = { Pixels.Raster };

    ghost view = { λ r. record { pixels = r.pixels.now; w = r.w; h = r.h } };
}
