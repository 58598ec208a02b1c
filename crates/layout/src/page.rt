// The way back to the page.
ghost use Rattle.std.specs.Prelude.{◌≡◌, ◌≤◌, ◌<◌};
ghost use Rattle.std.proofs.Math.IntN.{sub_ℕ};
ghost use Rattle.layout.specs.Steps.{Sheared};
ghost use Rattle.layout.specs.ToPage as To;
ghost use Rattle.layout.specs.ToPage.{to_page, rect_to_page};

use crate::rect::PageRect;
use crate::tables::Shears;
use rects::Rect;

// A place of the levelled picture: column and row.
#[derive(Clone, Copy)]
pub struct Levelled(pub u32, pub u32);

// A place of the page, which in the levelled picture's padding lies outside the page.
#[derive(Clone, Copy)]
pub struct PagePlace(pub i64, pub i64);

fn difference(a: usize, b: usize) -> i64
    requires { (a ≤ 8192) × (b ≤ 8192) }
    ensures { result ≡ sub_ℕ a b }
{
    // By `as`, since there is no `From` from usize to i64.
    (a as i64) - (b as i64)
}

// The nearest of the numbers 0 to side − 1.
fn nearest(side: usize, z: i64) -> usize
    ensures { result ≡ To.nearest side z }
{
    (z.max(0) as usize).min(side.saturating_sub(1))
}

// The nearest place inside the page, as a coordinate.
fn clamped(side: usize, z: i64) -> u32
    requires { (1 ≤ side) × (side ≤ 8192) }
    ensures { result ≡ To.nearest side z }
{
    nearest(side, z) as u32
}

fn least(a: i64, b: i64, c: i64, d: i64) -> i64
    ensures { result ≡ To.least a b c d }
{
    a.min(b).min(c.min(d))
}

fn greatest(a: i64, b: i64, c: i64, d: i64) -> i64
    ensures { result ≡ To.greatest a b c d }
{
    a.max(b).max(c.max(d))
}

impl Shears<'_> {
    // `to_page`, for sides and tables that pass their questions, and a place inside the picture.
    pub fn to_page(&self, p: Levelled) -> PagePlace
        requires { Sheared self.now.sides self.now.shear.now self.now.shear_x.now
            × ((1 ≤ self.now.sides.pw) × ((p.0 < self.now.sides.w) × (p.1 < self.now.sides.h))) }
        ensures { result ≡ to_page self.now.sides self.now.shear.now self.now.shear_x.now p }
    {
        let x = p.0 as usize;
        let y = p.1 as usize;
        let column = difference(x, self.across(y));
        let on_page = nearest(self.sides.pw, column);
        let row = difference(y, self.down(on_page));
        PagePlace(column, row)
    }

    // `rect_to_page`, likewise, for a rectangle with its corners inside the picture.
    pub fn rect_to_page(&self, r: Rect) -> PageRect
        requires { Sheared self.now.sides self.now.shear.now self.now.shear_x.now
            × (((1 ≤ self.now.sides.pw) × (1 ≤ self.now.sides.ph))
            × (((r.x0 < self.now.sides.w) × (r.y0 < self.now.sides.h))
            × ((r.x1 < self.now.sides.w) × (r.y1 < self.now.sides.h)))) }
        ensures { result ≡ rect_to_page self.now.sides self.now.shear.now self.now.shear_x.now r }
    {
        let a = self.to_page(Levelled(r.x0, r.y0));
        let b = self.to_page(Levelled(r.x1, r.y0));
        let c = self.to_page(Levelled(r.x0, r.y1));
        let d = self.to_page(Levelled(r.x1, r.y1));
        let sides = self.sides;
        PageRect {
            x0: clamped(sides.pw, least(a.0, b.0, c.0, d.0)),
            y0: clamped(sides.ph, least(a.1, b.1, c.1, d.1)),
            x1: clamped(sides.pw, greatest(a.0, b.0, c.0, d.0)),
            y1: clamped(sides.ph, greatest(a.1, b.1, c.1, d.1)),
        }
    }
}
