// Rectangles by value and as number lists, and what questions 5 and 6 ask of such lists.
#![tactic(auto)]

ghost use Rattle.std.specs.Prelude.{◌≡◌, ◌&&◌, ◌-◌, min, length};
ghost use Prim.Native.Nat.{◌+◌, ◌*◌, ◌^◌, ◌<◌, ◌≤◌};
ghost use Rattle.std.proofs.lemmas.List.Edits.{sets};
ghost use Rattle.lists.specs.Lists.{every_below};
ghost use Rattle.rects.specs.Rects.{width_of, height_of, rect_at, numbers_of, inside, count_fits, all_inside};
ghost use Rattle.rects.specs.Around.{union_of, around};
ghost use Rattle.rects.specs.Steps.{Places};

// Both ends are inside.
#[repr(C)]
#[derive(Clone, Copy)]
pub struct Rect {
    pub x0: u32,
    pub y0: u32,
    pub x1: u32,
    pub y1: u32,
}

impl Rect {
    pub fn width(self) -> u32
        requires { (self.x0 ≤ self.x1) × (self.x1 + 1 < 2 ^ 32) }
        ensures { result ≡ width_of self }
    {
        self.x1 - self.x0 + 1
    }

    pub fn height(self) -> u32
        requires { (self.y0 ≤ self.y1) × (self.y1 + 1 < 2 ^ 32) }
        ensures { result ≡ height_of self }
    {
        self.y1 - self.y0 + 1
    }

    // Ordered, and inside a picture of w columns and h rows.
    pub fn is_inside(self, w: usize, h: usize) -> bool
        ensures { result ≡ inside w h self }
    {
        if self.x1 < self.x0 {
            return false;
        }
        if self.y1 < self.y0 {
            return false;
        }
        if w <= self.x1 as usize {
            return false;
        }
        (self.y1 as usize) < h
    }
}

// The smallest rectangle around two.
pub fn union_rect(a: Rect, b: Rect) -> Rect
    ensures { result ≡ union_of a b }
{
    Rect {
        x0: a.x0.min(b.x0),
        y0: a.y0.min(b.y0),
        x1: a.x1.max(b.x1),
        y1: a.y1.max(b.y1),
    }
}

// Rectangle k of a number list.
pub fn rect_at(rects: &[u32], k: usize) -> Rect
    requires { 4 * k + 4 ≤ length rects.now }
    ensures { result ≡ rect_at rects.now k }
{
    let at = 4 * k;
    Rect {
        x0: rects[at],
        y0: rects[at + 1],
        x1: rects[at + 2],
        y1: rects[at + 3],
    }
}

// Rectangle k of a number list becomes r.
pub fn put_rect(rects: &mut [u32], k: usize, r: Rect)
    requires { 4 * k + 4 ≤ length rects.old }
    ensures { rects.new ≡ sets rects.old (4 * k) (numbers_of r) }
{
    let at = 4 * k;
    rects[at] = r.x0;
    rects[at + 1] = r.y0;
    rects[at + 2] = r.x1;
    rects[at + 3] = r.y1;
}

// The smallest rectangle around those at the given places.
pub fn bounding(rects: &[u32], places: &[u32]) -> Rect
    requires { (0 < length places.now) × Places rects.now places.now }
    ensures { result ≡ around rects.now places.now }
{
    let mut r = rect_at(rects, places[0] as usize);
    for place in &places[1..] {
        r = union_rect(r, rect_at(rects, *place as usize));
    }
    r
}

// Question 5.
pub fn count_fits(rects: &[u32], most: usize) -> bool
    ensures { result ≡ count_fits most rects.now }
{
    (rects.len() % 4 == 0) & (rects.len() / 4 <= most)
}

// The last of n places, as far as a number of a rectangle goes.
fn last(n: usize) -> u32
    ensures { result ≡ min (n - 1) 4294967295 }
{
    n.saturating_sub(1).min(4_294_967_295) as u32
}

// Are the rectangles from one up to another inside? Each is read, and its numbers are compared as they are: with no branch and no wider
// number in the loop several rectangles are tested at a time.
fn part_inside(rects: &[u32], from: usize, to: usize, w: usize, h: usize) -> bool
    requires { (from ≤ to) × (4 * to ≤ length rects.now) }
    ensures { every_below to (λ k. inside w h (rect_at rects.now k)) ≡ every_below from (λ k. inside w h (rect_at rects.now k)) && result }
{
    let right = last(w);
    let bottom = last(h);
    let mut inside = true;
    for k in from..to {
        let r = rect_at(rects, k);
        inside &= (r.x0 <= r.x1)
            & (r.y0 <= r.y1)
            & ((0 < w) & (r.x1 <= right))
            & ((0 < h) & (r.y1 <= bottom));
    }
    inside
}

// Question 6. Parts of 64 rectangles, so that of a list whose first rectangle lies outside one part is read. A `while`: a turn goes on
// where its part ended.
pub fn all_inside(rects: &[u32], w: usize, h: usize) -> bool
    ensures { result ≡ all_inside w h rects.now }
{
    let n = rects.len() / 4;
    let mut k = 0;
    while k < n {
        let end = k + (n - k).min(64);
        if !part_inside(rects, k, end, w, h) {
            return false;
        }
        k = end;
    }
    true
}
