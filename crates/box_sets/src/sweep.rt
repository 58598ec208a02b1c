// The joining of boxes along one doubled centre: they are swept in its order, so that each is held only against those behind it whose
// centre is near.
ghost use Rattle.std.specs.Prelude.{◌≡◌, cond, ◌+◌, ◌≤◌, ◌<◌, ◌^◌, length, drop};
ghost use Rattle.rects.specs.Rects.{count, rect_at};
ghost use Rattle.sorted.specs.Steps.{SortRoom};
ghost use Rattle.box_widths.specs.Steps.{PassedBoxes};
ghost use Rattle.box_sets.specs.Steps.{centre_in, Sweep, SweptTo, OneSet, RowDone, JoinedSo, JoinedNear};

use rects::Rect;

// Along which axis a doubled centre is taken: the boxes of a column have that along X in common, those of a row that along Y. An enum:
// callers name the axis, and no test of a box finds it, as one does in `pieces`.
#[derive(Clone, Copy)]
pub enum Axis {
    X,
    Y,
}

// The doubled centre along an axis.
fn centre2(r: Rect, axis: Axis) -> u64
    ensures { result ≡ centre_in axis r }
{
    match axis {
        Axis::X => u64::from(r.x0) + u64::from(r.x1),
        Axis::Y => u64::from(r.y0) + u64::from(r.y1),
    }
}

// The doubled centre of box i of a list.
fn centre2_at(rects: &[u32], i: usize, axis: Axis) -> u64
    requires { i < count rects.now }
    ensures { result ≡ centre_in axis (rect_at rects.now i) }
{
    centre2(rects::rect_at(rects, i), axis)
}

// The place up to which all are in one set: none, unless the whole row was. A bool, since a row gathers it from joins by `&`.
fn known_to(whole: bool, end: usize) -> usize
    ensures { result ≡ cond whole end 0 }
{
    if whole { end } else { 0 }
}

// Joins the box at place k of the order with every later one that is near and of similar width, up to the first of its own width: what is
// near past that one is near to that one too. From the first on that is out of reach, none is near. All before place `from` are in one
// set with it; the result is the same for the next place. The limit's bound is a fact beside it: a doubled limit needs more than 32 bits.
fn join_row(
    rects: &[u32],
    limit: u64,
    order: &[u32],
    keys: &[u64],
    parents: &mut [u32],
    k: usize,
    from: usize,
) -> usize
    requires { (limit < 2 ^ 40) × PassedBoxes rects.now × Sweep rects.now limit order.now keys.now × (k < count rects.now)
        × SweptTo rects.now limit order.now keys.now parents.old k (k + 1) parents.old
        × (from ≤ count rects.now) × OneSet order.now k from parents.old }
    ensures { RowDone rects.now limit order.now keys.now parents.old k parents.new result }
{
    let n = rects.len() / 4;
    let i = order[k] as usize;
    let width = box_widths::size_at(rects, i);
    let last = keys[i] + limit;
    let mut whole = true;
    // Behind k, the first that is not known to be in one set with it.
    for l in from.max(k + 1)..n {
        let j = order[l] as usize;
        if last < keys[j] {
            return known_to(whole, l);
        }
        let other = box_widths::size_at(rects, j);
        whole = box_widths::join_similar(parents, n, i, j, width, other) & whole;
        if other == width {
            return known_to(whole, l + 1);
        }
    }
    known_to(whole, n)
}

// Joins every two boxes of similar widths whose doubled centre along the axis is near.
pub fn join_near(
    rects: &[u32],
    limit: u64,
    axis: Axis,
    parents: &mut [u32],
    order: &mut [u32],
    work: &mut [u32],
    keys: &mut [u64],
)
    requires { (limit < 2 ^ 40) × PassedBoxes rects.now × SortRoom (count rects.now) order.old work.old keys.old
        × JoinedSo rects.now limit (λ i j. ⊥) parents.old }
    ensures { JoinedNear rects.now limit axis parents.old parents.new
        × (drop (count rects.now) order.new ≡ drop (count rects.now) order.old) }
{
    let n = rects.len() / 4;
    sorted::arrange_by(|i| centre2_at(rects, i, axis), n, order, work, keys);
    let mut known = 0;
    for k in 0..n {
        known = join_row(rects, limit, order, keys, parents, k, known);
    }
}
