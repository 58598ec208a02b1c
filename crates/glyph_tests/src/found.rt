// The tests on one glyph box, in the Rust's order.
ghost use Rattle.std.specs.Prelude.{◌≡◌, ◌≤◌};
ghost use Rattle.ink.specs.Ink.{inked};
ghost use Rattle.glyph_tests.specs.Steps.{found_in, found_of};

use crate::limits::Limits;
use ink::Region;
use rects::Rect;

// A hollow square: its frame, whether it is ticked or empty, and the least of its four edge shares.
#[derive(Clone, Copy)]
pub struct CheckBox {
    pub bbox: Rect,
    pub ticked: bool,
    pub edge_coverage: f64,
}

// The tests on the frame: none where it is passed over.
fn test_frame(frame: &Region, l: Limits) -> Option<CheckBox>
    requires { l.box_tolerance_px ≤ 3 }
    ensures { result ≡ found_in (inked frame.now.mask) l frame.now.rect }
{
    let width = frame.width();
    let height = frame.height();
    if crate::sizes::size_missed(width, height, l.min_side, l.max_side) {
        return None;
    }
    if crate::sizes::aspect_missed(width, height, l.box_aspect_tol) {
        return None;
    }
    let edge_coverage = crate::edges::edge_coverage(frame, l.box_tolerance_px);
    if edge_coverage < l.box_edge_coverage {
        return None;
    }
    let inner = crate::inner::inner_ink(frame);
    if inner > l.box_max_inner_ink {
        return None;
    }
    Some(CheckBox {
        bbox: frame.rect,
        ticked: inner >= l.box_checked_ink,
        edge_coverage,
    })
}

// The glyph box may be bigger than the box in it (a tick that overshoots it), so its own size test is loose, and the real one is on the frame.
pub fn test_glyph(r: &Region, l: Limits) -> Option<CheckBox>
    requires { l.box_tolerance_px ≤ 3 }
    ensures { result ≡ found_of (inked r.now.mask) l r.now.rect }
{
    if crate::sizes::size_missed(r.width(), r.height(), l.min_size, l.slack) {
        return None;
    }
    let f = crate::frame::frame_of(r, l.box_overshoot_fraction)?;
    test_frame(&r.part(f), l)
}
