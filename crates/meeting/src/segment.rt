// A ruling as other rulings meet it.
ghost use Rattle.std.specs.Prelude.{◌≡◌, true, ◌+◌, ◌<◌, ◌^◌, length, get_or};
ghost use Rattle.meeting.specs.Chosen as Chosen;
ghost use Rattle.meeting.specs.Segments.{segment_of, ruling, opposite, span_holds, joins_end};
ghost use Rattle.rects.specs.Rects.{rect_at};
ghost use Rattle.rects.specs.Steps.{Inside};
ghost use Rattle.meeting.specs.Steps.{Given};

use std::marker::Model;

// The span along the ruling, and twice its centre across, so that it stays whole. `horizontal` is a bool, as the Rust has it: made of C's number once,
// and compared.
#[derive(Clone, Copy)]
pub struct Segment {
    pub horizontal: bool,
    pub start: u32,
    pub end: u32,
    pub centre2: u32,
}

// A ruling of a direction, 0 for horizontal: a number, since C's lists hold it.
fn segment_of(r: rects::Rect, direction: u32) -> Segment
    requires { (r.x0 + r.x1 < 2 ^ 32) × (r.y0 + r.y1 < 2 ^ 32) }
    ensures { result ≡ segment_of r direction }
{
    if direction == 0 {
        return Segment {
            horizontal: true,
            start: r.x0,
            end: r.x1,
            centre2: r.y0 + r.y1,
        };
    }
    Segment {
        horizontal: false,
        start: r.y0,
        end: r.y1,
        centre2: r.x0 + r.x1,
    }
}

// Does a doubled place lie within twice the span, widened by the limit? A horizontal and a vertical touch, the Rust's `meet`, where each holds the other's
// doubled centre.
pub fn span_holds(a: Segment, c: u32, join: u32) -> bool
    ensures { result ≡ span_holds join a c }
{
    let c = u64::from(c);
    let join = u64::from(join);
    (2 * u64::from(a.start) <= c + 2 * join) & (c <= 2 * (u64::from(a.end) + join))
}

// Does ruling b, of the other direction, join the end of ruling a?
fn joins_end(end: u32, a: Segment, b: Segment, join: u32) -> bool
    requires { opposite a b ≡ true }
    ensures { result ≡ joins_end join end a b }
{
    let near = (2 * u64::from(end)).abs_diff(u64::from(b.centre2)) <= 2 * u64::from(join) + 2;
    near & span_holds(b, a.centre2, join)
}

// The rulings that are looked at: the rectangle and the direction of each ruling, and the places of the chosen ones. An index is a place among these.
#[derive(Drop)]
pub struct Rulings<'a> {
    pub rects: &'a [u32],
    pub directions: &'a [u32],
    pub chosen: &'a [u32],
}

impl<'a> Model for Rulings<'a> {
    ghost Value = { Chosen.Rulings };

    ghost view = { λ r. record { rects = r.rects.now; directions = r.directions.now; chosen = r.chosen.now } };

    ghost invariant = { λ r. Given r.rects.now r.directions.now r.chosen.now };
}

impl Rulings<'_> {
    // How many are chosen.
    pub fn len(&self) -> usize
        ensures { (result ≡ length self.now.chosen) × Given self.now.rects self.now.directions self.now.chosen }
    {
        self.chosen.len()
    }

    // The place of the ruling at an index.
    fn place(&self, i: usize) -> usize
        requires { i < length self.now.chosen }
        ensures { result ≡ get_or self.now.chosen i 0 }
    {
        // The list first, so that its length is known where it is read.
        let chosen = self.chosen;
        chosen[i] as usize
    }

    // Its rectangle.
    pub fn rect_at(&self, i: usize) -> rects::Rect
        requires { i < length self.now.chosen }
        ensures { (result ≡ rect_at self.now.rects (get_or self.now.chosen i 0)) × Inside 8192 8192 result }
    {
        rects::rect_at(self.rects, self.place(i))
    }

    // Its direction, 0 for horizontal.
    fn direction(&self, i: usize) -> u32
        requires { i < length self.now.chosen }
        ensures { result ≡ get_or self.now.directions (get_or self.now.chosen i 0) 0 }
    {
        let directions = self.directions;
        directions[self.place(i)]
    }

    // The ruling itself.
    pub fn at(&self, i: usize) -> Segment
        requires { i < length self.now.chosen }
        ensures { result ≡ ruling self.now i }
    {
        segment_of(self.rect_at(i), self.direction(i))
    }

    // The same for a horizontal ruling, whose direction need not be read.
    pub fn horizontal_at(&self, i: usize) -> Segment
        requires { (i < length self.now.chosen) × ((ruling self.now i).horizontal ≡ true) }
        ensures { result ≡ ruling self.now i }
    {
        segment_of(self.rect_at(i), 0)
    }

    // Does the ruling at index j join the end of ruling a? Its direction is asked before its rectangle is read.
    pub fn joined_by(&self, end: u32, a: Segment, j: usize, join: u32) -> bool
        requires { j < length self.now.chosen }
        ensures { result ≡ joins_end join end a (ruling self.now j) }
    {
        if (self.direction(j) == 0) == a.horizontal {
            return false;
        }
        joins_end(end, a, self.at(j), join)
    }
}
