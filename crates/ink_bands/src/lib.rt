// Columns four at a time: a tall region is read row by row in bands, and a band of which no column is over the limit is passed over. No
// count is kept: of a column over the limit only the place is.
#![tactic(auto)]

ghost use Rattle.std.specs.Int.{from_bool};
ghost use Rattle.std.specs.Prelude.{◌≡◌, true, ◌+◌, ◌*◌, ◌≤◌, ◌<◌, length};
ghost use Rattle.rects.specs.Rects.{width_of};
ghost use Rattle.ink.specs.Ink.{inked};
ghost use Rattle.ink_bands.specs.Steps.{FourColumns, NoneOver};

use ink::{Mask, Region, read};

// One more where a place has ink.
fn counted(mask: &Mask, x: usize, y: usize, n: u32) -> u32
    requires { (y * mask.now.w + x < length mask.now.bytes) × (n < 8192) }
    ensures { result ≡ n + from_bool (inked mask.now x y) }
{
    n + u32::from(mask.is_ink(x, y))
}

// The ink in the columns i to i + 3 of a region, side by side.
fn four_columns(r: &Region, i: u32) -> [u32; 4]
    requires { i + 4 ≤ width_of r.now.rect }
    ensures { FourColumns (inked r.now.mask) r.now.rect i result }
{
    let x = (r.rect.x0 + i) as usize;
    let y = r.rect.y0 as usize;
    let rows = r.rect.height() as usize;
    let mask = r.mask;
    let mut a = 0;
    let mut b = 0;
    let mut c = 0;
    let mut d = 0;
    for j in 0..rows {
        a = counted(mask, x, y + j, a);
        b = counted(mask, x + 1, y + j, b);
        c = counted(mask, x + 2, y + j, c);
        d = counted(mask, x + 3, y + j, d);
    }
    [a, b, c, d]
}

// Is none of the columns i to i + 3 over the limit?
fn none_over(r: &Region, i: u32, limit: f64) -> bool
    requires { i + 4 ≤ width_of r.now.rect }
    ensures { result ≡ true → NoneOver (inked r.now.mask) r.now.rect limit i (i + 4) }
{
    let inks = four_columns(r, i);
    inks.iter().all(|n| !read::is_over(limit, *n))
}

// How many columns of a tall region may be passed over from the left, since none of them is over the limit.
pub fn first_columns(r: &Region, limit: f64) -> u32
    ensures { (result ≤ width_of r.now.rect) × NoneOver (inked r.now.mask) r.now.rect limit 0 result }
{
    if r.height() < 256 {
        return 0;
    }
    let n = r.width();
    let mut k = 0;
    // `step_by(4)` would be no plainer: it gives the last band too, which may not be whole.
    while k + 4 <= n {
        if !none_over(r, k, limit) {
            return k;
        }
        k += 4;
    }
    k
}

// Where those end that may be passed over from the right.
pub fn last_columns(r: &Region, limit: f64) -> u32
    ensures { (result ≤ width_of r.now.rect) × NoneOver (inked r.now.mask) r.now.rect limit result (width_of r.now.rect) }
{
    let mut end = r.width();
    if r.height() < 256 {
        return end;
    }
    // `step_by(4)` would be no plainer: the bands are cut from the right, and the rest on the left is no band.
    while 4 <= end {
        let from = end - 4;
        if !none_over(r, from, limit) {
            return end;
        }
        end = from;
    }
    end
}
