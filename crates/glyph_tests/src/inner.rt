// The inner half of a frame, and how much of it is ink.
ghost use Rattle.std.specs.Prelude.{◌≡◌, ◌+◌, ◌/◌, ◌^◌, ◌<◌, ◌≤◌};
ghost use Rattle.ink.specs.Ink.{inked};
ghost use Rattle.glyph_tests.specs.Tests.{inner_half, inner_ink};

use ink::Region;
use rects::Rect;

fn quarter(n: u32) -> u32
    ensures { result ≡ n / 4 }
{
    n / 4
}

fn inner_half(f: Rect) -> Rect
    requires { (f.x0 ≤ f.x1) × (f.y0 ≤ f.y1) × (f.x1 + 1 < 2 ^ 32) × (f.y1 + 1 < 2 ^ 32) }
    ensures { result ≡ inner_half f }
{
    let x = quarter(f.width());
    let y = quarter(f.height());
    Rect {
        x0: f.x0 + x,
        y0: f.y0 + y,
        x1: f.x1 - x,
        y1: f.y1 - y,
    }
}

// The inked share of the inner half.
pub fn inner_ink(frame: &Region) -> f64
    ensures { result ≡ inner_ink (inked frame.now.mask) frame.now.rect }
{
    let half = frame.part(inner_half(frame.rect));
    let inked = half.ink_in();
    let total = half.width() * half.height();
    f64::from(inked) / f64::from(total)
}
