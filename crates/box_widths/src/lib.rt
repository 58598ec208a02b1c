// Which boxes of one column or row touch: those of similar widths.
#![tactic(auto)]

ghost use Rattle.std.specs.Prelude.{◌≡◌, true, ◌<◌};
ghost use Rattle.rects.specs.Rects.{width_of, count, rect_at};
ghost use Rattle.rects.specs.Steps.{Inside};
ghost use Rattle.sets.specs.Steps.{Joined, Parents, root};
ghost use Rattle.box_widths.specs.Widths.{similar};
ghost use Rattle.box_widths.specs.Steps.{PassedBoxes};

use rects::Rect;

// Do two widths differ by at most 0.3 * the larger? Widths are whole, so their difference is exact.
fn similar(a: u32, b: u32) -> bool
    ensures { result ≡ similar a b }
{
    f64::from(a.abs_diff(b)) <= 0.3 * f64::from(a.max(b))
}

// What is compared of two boxes: the width alone.
fn size(r: Rect) -> u32
    requires { Inside 8192 8192 r }
    ensures { result ≡ width_of r }
{
    r.width()
}

// The width of box j of a list. That the boxes passed their questions is a fact of the list, here as in the crates above: a struct of the
// one list would be made anew at each call, and callers have the list alone.
pub fn size_at(rects: &[u32], j: usize) -> u32
    requires { PassedBoxes rects.now × (j < count rects.now) }
    ensures { result ≡ width_of (rect_at rects.now j) }
{
    size(rects::rect_at(rects, j))
}

// Joins box j with box i, of n, if their widths, which are given, are similar. Are the two in one set now? Two with one parent were before.
// The number n stands beside the list as in `sets`: there may be fewer boxes than the list has entries.
pub fn join_similar(
    parents: &mut [u32],
    n: usize,
    i: usize,
    j: usize,
    width: u32,
    other: u32,
) -> bool
    requires { Parents n parents.old × (i < n) × (j < n) }
    ensures { Joined n parents.old i j (similar width other) parents.new
        × (result ≡ true → root parents.new i ≡ root parents.new j) }
{
    sets::join_if(parents, n, i, j, || similar(width, other))
}
