// What `detect` is given.
ghost use Rattle.page.specs.Page as Given;

use layout::sides::Sides;
use params::settings::{FusionParams, RulingsParams};
use std::marker::Model;

// A page: its sides and the levelled picture's, resolution and x-height, settings and caps, the grey and the ink, the shear tables, rule pieces
// and glyph boxes.
#[derive(Drop)]
pub struct Page<'a> {
    pub sides: Sides,
    pub dpi: u16,
    pub xheight: f64,
    pub settings: RulingsParams,
    pub caps: FusionParams,
    pub gray: &'a [u8],
    pub ink: &'a [u8],
    pub shear: &'a [i32],
    pub shear_x: &'a [i32],
    pub pieces: &'a [u32],
    pub glyphs: &'a [u32],
}

impl<'a> Model for Page<'a> {
    ghost Value = { Given.Page };

    ghost view = { λ g. record {
      sides = g.sides;
      dpi = g.dpi;
      xheight = g.xheight;
      settings = g.settings;
      caps = g.caps;
      gray = g.gray.now;
      ink = g.ink.now;
      shear = g.shear.now;
      shear_x = g.shear_x.now;
      pieces = g.pieces.now;
      glyphs = g.glyphs.now;
    } };
}
