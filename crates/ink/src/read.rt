// Reading a mask, and counting ink in the rows and columns of a region and in all of it.
ghost use Rattle.std.specs.Prelude.{◌≡◌, not, ◌+◌, ◌*◌, ◌≤◌, ◌<◌, eqb, ltb, length, get_or};
ghost use Rattle.rects.specs.Rects.{width_of, height_of};
ghost use Rattle.ink.specs.Ink.{inked, many, row_ink, column_ink, ink_in};
ghost use Rattle.ink.specs.Places.{over};
ghost use Rattle.ink.specs.Steps.{Readable, Within};

use crate::{Mask, Region};
use rects::Rect;

// How many bytes of a part of a row are ink.
fn count_ink(row: &[u8]) -> u32
    requires { length row.now ≤ 8192 }
    ensures { result ≡ many (λ i. not (eqb (get_or row.now i 0) 0)) (length row.now) }
{
    let mut n = 0;
    for b in row {
        n += u32::from(*b != 0);
    }
    n
}

impl<'a> Mask<'a> {
    // Is there ink in column x of row y?
    pub fn is_ink(&self, x: usize, y: usize) -> bool
        requires { y * self.now.w + x < length self.now.bytes }
        ensures { result ≡ inked self.now x y }
    {
        self.bytes[y * self.w + x] != 0
    }
}

impl<'a> Region<'a> {
    // A rectangle of a mask.
    pub fn new(mask: &'a Mask<'a>, rect: Rect) -> Region<'a>
        requires { Readable mask.now rect }
        ensures { result ≡ record { mask = mask.now; rect = rect } }
    {
        Region { mask, rect }
    }

    // Another rectangle of its mask, which ends inside the region.
    pub fn part(&self, rect: Rect) -> Region<'a>
        requires { Within rect self.now.rect }
        ensures { result ≡ record { mask = self.now.mask; rect = rect } }
    {
        Region {
            mask: self.mask,
            rect,
        }
    }

    // How many columns it has.
    pub fn width(&self) -> u32
        ensures { (result ≡ width_of self.now.rect) × Readable self.now.mask self.now.rect }
    {
        self.rect.width()
    }

    // How many rows it has.
    pub fn height(&self) -> u32
        ensures { (result ≡ height_of self.now.rect) × Readable self.now.mask self.now.rect }
    {
        self.rect.height()
    }

    // The ink in row j.
    pub fn row_count(&self, j: u32) -> u32
        requires { j < height_of self.now.rect }
        ensures { result ≡ row_ink (inked self.now.mask) self.now.rect j }
    {
        let r = self.rect;
        let mask = self.mask;
        let start = (r.y0 + j) as usize * mask.w + r.x0 as usize;
        let end = start + r.width() as usize;
        count_ink(&mask.bytes[start..end])
    }

    // The ink in column i.
    pub fn column_count(&self, i: u32) -> u32
        requires { i < width_of self.now.rect }
        ensures { result ≡ column_ink (inked self.now.mask) self.now.rect i }
    {
        let r = self.rect;
        let x = (r.x0 + i) as usize;
        let y = r.y0 as usize;
        let rows = r.height() as usize;
        let mut n = 0;
        for j in 0..rows {
            n += u32::from(self.mask.is_ink(x, y + j));
        }
        n
    }

    // Is there ink in row j? A loop, since `any` over the places tests for the end twice and takes a fourth longer.
    pub fn row_has_ink(&self, j: u32) -> bool
        requires { j < height_of self.now.rect }
        ensures { result ≡ ltb 0 (row_ink (inked self.now.mask) self.now.rect j) }
    {
        let r = self.rect;
        let x = r.x0 as usize;
        let y = (r.y0 + j) as usize;
        let columns = r.width() as usize;
        for i in 0..columns {
            if self.mask.is_ink(x + i, y) {
                return true;
            }
        }
        false
    }

    // Is there ink in column i? One function for rows and columns would be no plainer: it would need the step from place to place, and over
    // a column, whose places lie a row apart, `any` takes no longer than a loop.
    pub fn column_has_ink(&self, i: u32) -> bool
        requires { i < width_of self.now.rect }
        ensures { result ≡ ltb 0 (column_ink (inked self.now.mask) self.now.rect i) }
    {
        let r = self.rect;
        let x = (r.x0 + i) as usize;
        let y = r.y0 as usize;
        let rows = r.height() as usize;
        let mask = self.mask;
        (0..rows).any(|j| mask.is_ink(x, y + j))
    }

    // The ink in it.
    pub fn ink_in(&self) -> u32
        ensures { result ≡ ink_in (inked self.now.mask) self.now.rect }
    {
        let mut n = 0;
        for j in 0..self.height() {
            n += self.row_count(j);
        }
        n
    }
}

// Is a line with n places of ink over the limit?
pub fn is_over(limit: f64, n: u32) -> bool
    ensures { result ≡ over limit n }
{
    !(f64::from(n) <= limit)
}
