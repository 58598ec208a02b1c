// The frame: the glyph box less the outer rows and columns that are almost empty, as the tip of a tick poking out of the box is.
ghost use Rattle.std.specs.Prelude.{◌≡◌};
ghost use Rattle.ink.specs.Ink.{inked};
ghost use Rattle.glyph_tests.specs.Steps.{framed_of};

use ink::{Lines, Region};
use rects::Rect;

pub fn frame_of(r: &Region, fraction: f64) -> Option<Rect>
    ensures { result ≡ framed_of (inked r.now.mask) fraction r.now.rect }
{
    let width = r.width();
    let height = r.height();
    let row_limit = fraction * f64::from(width);
    let column_limit = fraction * f64::from(height);
    let top = ink_lines::first_line(r, Lines::Rows, row_limit);
    if height <= top {
        return None;
    }
    let left = ink_lines::first_line(r, Lines::Columns, column_limit);
    if width <= left {
        return None;
    }
    let bottom = ink_lines::last_line_end(r, Lines::Rows, row_limit);
    let right = ink_lines::last_line_end(r, Lines::Columns, column_limit);
    Some(Rect {
        x0: r.rect.x0 + left,
        y0: r.rect.y0 + top,
        x1: r.rect.x0 + (right - 1),
        y1: r.rect.y0 + (bottom - 1),
    })
}
