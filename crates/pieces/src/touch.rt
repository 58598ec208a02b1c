// Which pieces touch, and the joining of all that do: pieces are swept in the order of their starts, horizontal ones before vertical ones, so
// that each is held only against those that begin before it is past.
ghost use Rattle.std.specs.Prelude.{◌≡◌, ◌+◌, ◌*◌, ◌≤◌, ◌<◌, ◌^◌, length, drop};
ghost use Rattle.rects.specs.Rects.{count, rect_at};
ghost use Rattle.sets.specs.Closed.{Below};
ghost use Rattle.sets.specs.Steps.{Joins, Joined, Parents, Room};
ghost use Rattle.sorted.specs.Steps.{SortRoom};
ghost use Rattle.pieces.specs.Pieces.{horizontal, within, Touch};
ghost use Rattle.pieces.specs.Steps.{Ordered, AllOrdered, centre_in, start_in, end_in, last_key, KeyOf, Keyed, Sweep, SweptTo};

use rects::Rect;

// At least as wide as high?
pub fn is_horizontal(r: Rect) -> bool
    requires { Ordered r }
    ensures { result ≡ horizontal r }
{
    r.y1 - r.y0 <= r.x1 - r.x0
}

// The doubled centre, the start and the end, taken as if the piece were horizontal or not. A bool: it is what the test of a piece
// finds and what keys and lists are made from, so that an enum would be made from it and turned back. (An axis that a caller names
// by itself, as in `box_sets`, is an enum.)
fn centre2(r: Rect, horizontal: bool) -> u64
    ensures { (result ≡ centre_in horizontal r) × (result < 2 ^ 33) }
{
    if horizontal {
        u64::from(r.y0) + u64::from(r.y1)
    } else {
        u64::from(r.x0) + u64::from(r.x1)
    }
}

fn start(r: Rect, horizontal: bool) -> u64
    ensures { (result ≡ start_in horizontal r) × (result < 2 ^ 32) }
{
    u64::from(if horizontal { r.x0 } else { r.y0 })
}

fn end(r: Rect, horizontal: bool) -> u64
    ensures { (result ≡ end_in horizontal r) × (result < 2 ^ 32) }
{
    u64::from(if horizontal { r.x1 } else { r.y1 })
}

// The doubled centre of piece j of a list, of which only the numbers that are asked for are read.
fn centre2_at(pieces: &[u32], j: usize, horizontal: bool) -> u64
    requires { 4 * j + 4 ≤ length pieces.now }
    ensures { (result ≡ centre_in horizontal (rect_at pieces.now j)) × (result < 2 ^ 33) }
{
    let at = 4 * j;
    if horizontal {
        u64::from(pieces[at + 1]) + u64::from(pieces[at + 3])
    } else {
        u64::from(pieces[at]) + u64::from(pieces[at + 2])
    }
}

// Are two doubled centres at most so far apart?
fn near(a: u64, b: u64, reach: u64) -> bool
    ensures { result ≡ within reach a b }
{
    a.abs_diff(b) <= reach
}

// Where a piece stands in the sweep: at its start.
fn key_of(r: Rect) -> u64
    requires { Ordered r }
    ensures { KeyOf r result }
{
    let horizontal = is_horizontal(r);
    start(r, horizontal) + sorted::offset(horizontal)
}

// The last key of those that a piece may reach over the gap behind its end.
fn last_key(a: Rect, horizontal: bool, gap: u32) -> u64
    ensures { (result ≡ last_key gap horizontal a) × (end_in horizontal a < 2 ^ 32) }
{
    let past = u64::from(gap) + 1;
    end(a, horizontal) + past + sorted::offset(horizontal)
}

// The key of piece i of a list. That pieces are ordered is a fact of the list, here as above: a struct of the one list would be made anew
// at each call, and callers have the list alone.
fn key_at(pieces: &[u32], i: usize) -> u64
    requires { AllOrdered pieces.now × (i < count pieces.now) }
    ensures { KeyOf (rect_at pieces.now i) result }
{
    key_of(rects::rect_at(pieces, i))
}

// Joins two pieces if the centre of the second is near the given one. Two with one parent are in one set already.
fn join_near(
    pieces: &[u32],
    parents: &mut [u32],
    i: usize,
    j: usize,
    horizontal: bool,
    centre: u64,
    reach: u64,
)
    requires { Parents (count pieces.now) parents.old × (i < count pieces.now) × (j < count pieces.now) × (centre < 2 ^ 33) × (reach < 2 ^ 33) }
    ensures { Joined (count pieces.now) parents.old i j (within reach centre (centre_in horizontal (rect_at pieces.now j)))
        parents.new }
{
    let touch = || near(centre, centre2_at(pieces, j, horizontal), reach);
    sets::join_if(parents, pieces.len() / 4, i, j, touch);
}

// Joins the piece at place k of the order with every later one that it touches. From the first on that begins too late, none does.
fn join_row(
    pieces: &[u32],
    across: u32,
    gap: u32,
    order: &[u32],
    keys: &[u64],
    parents: &mut [u32],
    k: usize,
)
    requires { (k < count pieces.now) × AllOrdered pieces.now × Sweep pieces.now order.now keys.now
        × SweptTo pieces.now across gap order.now k (k + 1) parents.old }
    ensures { SweptTo pieces.now across gap order.now (k + 1) (k + 2) parents.new }
{
    let n = pieces.len() / 4;
    let i = order[k] as usize;
    let a = rects::rect_at(pieces, i);
    let horizontal = is_horizontal(a);
    let centre = centre2(a, horizontal);
    let reach = 2 * u64::from(across);
    let last = last_key(a, horizontal, gap);
    for l in k + 1..n {
        let j = order[l] as usize;
        if last < keys[j] {
            return;
        }
        join_near(pieces, parents, i, j, horizontal, centre, reach);
    }
}

// Joins every two pieces that touch. The other lists are lent to sort in, with a place a piece each; `order` keeps what stands past those.
pub fn join_all(
    pieces: &[u32],
    across: u32,
    gap: u32,
    parents: &mut [u32],
    order: &mut [u32],
    work: &mut [u32],
    keys: &mut [u64],
)
    requires { Room (count pieces.now) parents.old × AllOrdered pieces.now
        × SortRoom (count pieces.now) order.old work.old keys.old }
    ensures { Joins (count pieces.now) (Below (count pieces.now)) (Touch pieces.now across gap) parents.new
        × (drop (count pieces.now) order.new ≡ drop (count pieces.now) order.old) }
{
    let n = pieces.len() / 4;
    sets::begin(parents, n);
    sorted::arrange_by(|i| key_at(pieces, i), n, order, work, keys);
    for k in 0..n {
        join_row(pieces, across, gap, order, keys, parents, k);
    }
}
