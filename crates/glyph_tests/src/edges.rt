// Four straight edges. A band of rows or columns absorbs the staircase of a rotated line; unbroken is what a round letter lacks.
ghost use Rattle.std.specs.Prelude.{◌≡◌, ◌^◌, ◌<◌, ◌≤◌};
ghost use Prim.Native.Nat.{◌+◌};
ghost use Rattle.ink.specs.Ink.{inked};
ghost use Rattle.glyph_tests.specs.Tests.{edge_coverage};
ghost use Rattle.glyph_tests.specs.Steps.{top_band, bottom_band, left_band, right_band, line_share};

use ink::{Lines, Region};
use rects::Rect;

// Four bands, along a frame's four sides: x and y exchanged, or the other end kept. No constant and no type tells them apart, so one function
// for all would be no plainer.
fn top_band(f: Rect, tol: u32) -> Rect
    requires { f.y0 + tol < 2 ^ 32 }
    ensures { result ≡ top_band f tol }
{
    Rect {
        x0: f.x0,
        y0: f.y0,
        x1: f.x1,
        y1: (f.y0 + tol).min(f.y1),
    }
}

fn bottom_band(f: Rect, tol: u32) -> Rect
    requires { f.y0 ≤ f.y1 }
    ensures { result ≡ bottom_band f tol }
{
    Rect {
        x0: f.x0,
        y0: f.y1.saturating_sub(tol).max(f.y0),
        x1: f.x1,
        y1: f.y1,
    }
}

fn left_band(f: Rect, tol: u32) -> Rect
    requires { f.x0 + tol < 2 ^ 32 }
    ensures { result ≡ left_band f tol }
{
    Rect {
        x0: f.x0,
        y0: f.y0,
        x1: (f.x0 + tol).min(f.x1),
        y1: f.y1,
    }
}

fn right_band(f: Rect, tol: u32) -> Rect
    requires { f.x0 ≤ f.x1 }
    ensures { result ≡ right_band f tol }
{
    Rect {
        x0: f.x1.saturating_sub(tol).max(f.x0),
        y0: f.y0,
        x1: f.x1,
        y1: f.y1,
    }
}

// The longest unbroken run of lines of a band that have ink, as a share of them.
fn share(band: &Region, lines: Lines) -> f64
    ensures { result ≡ line_share (inked band.now.mask) band.now.rect lines }
{
    let best = ink_lines::longest(band, lines);
    f64::from(best) / f64::from(ink_lines::lines_of(band.rect, lines))
}

pub fn edge_coverage(frame: &Region, tol: u32) -> f64
    requires { tol ≤ 3 }
    ensures { result ≡ edge_coverage (inked frame.now.mask) frame.now.rect tol }
{
    let f = frame.rect;
    let top = share(&frame.part(top_band(f, tol)), Lines::Columns);
    let bottom = share(&frame.part(bottom_band(f, tol)), Lines::Columns);
    let left = share(&frame.part(left_band(f, tol)), Lines::Rows);
    let right = share(&frame.part(right_band(f, tol)), Lines::Rows);
    select::min(select::min(select::min(top, bottom), left), right)
}
