// The sizes and shares that the tests compare with, worked out once a page.
ghost use Rattle.std.specs.Prelude.{◌≡◌};
ghost use Rattle.glyph_tests.specs.Limits.{box_limits_of};

use params::settings::RulingsParams;

#[derive(Clone, Copy)]
pub struct Limits {
    pub min_size: f64,
    pub slack: f64,
    pub min_side: f64,
    pub max_side: f64,
    pub box_overshoot_fraction: f64,
    pub box_aspect_tol: f64,
    pub box_tolerance_px: u32,
    pub box_edge_coverage: f64,
    pub box_max_inner_ink: f64,
    pub box_checked_ink: f64,
}

pub fn limits_of(dpi: u16, xheight: f64, p: RulingsParams) -> Limits
    ensures { result ≡ box_limits_of dpi xheight p }
{
    let min_size = p.box_min_xh * xheight;
    // A box is at least this many pixels on a side: round letters pass the other tests at 8 px.
    let min_px = p.box_min_in * f64::from(dpi);
    Limits {
        min_size,
        slack: 1.6 * p.box_max_xh * xheight,
        min_side: select::max(min_size, min_px),
        max_side: p.box_max_xh * xheight,
        box_overshoot_fraction: p.box_overshoot_fraction,
        box_aspect_tol: p.box_aspect_tol,
        box_tolerance_px: p.box_tolerance_px,
        box_edge_coverage: p.box_edge_coverage,
        box_max_inner_ink: p.box_max_inner_ink,
        box_checked_ink: p.box_checked_ink,
    }
}
