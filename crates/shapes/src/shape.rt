// The shape of a set: how many rulings and lines it has each way.
ghost use Rattle.std.specs.Prelude.{◌≡◌, true, false, ◌&&◌, ◌≤◌, leb, length};
ghost use Rattle.meeting.specs.Segments.{ruling};
ghost use Rattle.shapes.specs.Shapes.{in_direction};
ghost use Rattle.meeting.specs.Steps.{IndexesBelow};
ghost use Rattle.shapes.specs.Steps.{Collected, LinesCounted, Shaped};

use crate::limits::Limits;
use meeting::segment::{Rulings, Segment};

// The direction that is asked for is a bool, since it is compared with the ruling's own and chooses no other step.
fn in_direction(a: Segment, horizontal: bool) -> bool
    ensures { result ≡ in_direction horizontal a }
{
    a.horizontal == horizontal
}

// Writes the line positions of the set's rulings in a direction, and returns how many there are. What is written for a ruling
// of the other direction is overwritten by the next. That members are indexes of rulings stands as a fact of their list, here as in
// `junctions` and `table_lists`: a struct of both would be made anew for each set, and callers have the list alone.
fn collect(rulings: &Rulings, set: &[u32], horizontal: bool, keys: &mut [u64]) -> usize
    requires { IndexesBelow (length rulings.now.chosen) set.now × (length set.now ≤ length keys.old) }
    ensures { Collected horizontal (ruling rulings.now) set.now
        keys.new result }
{
    // The number steps by hand, since only what is listed counts.
    let mut n = 0;
    for i in set {
        let a = rulings.at(*i as usize);
        keys[n] = u64::from(a.centre2 / 2);
        n += usize::from(in_direction(a, horizontal));
    }
    n
}

// The rulings of a set in a direction, and the lines that they make.
#[derive(Clone, Copy)]
pub struct Count {
    pub rulings: usize,
    pub lines: usize,
}

fn count_lines(
    rulings: &Rulings,
    set: &[u32],
    horizontal: bool,
    cluster: u64,
    keys: &mut [u64],
    order: &mut [u32],
    work: &mut [u32],
) -> Count
    requires { IndexesBelow (length rulings.now.chosen) set.now × (length set.now ≤ length keys.old)
        × (length set.now ≤ length order.old) × (length set.now ≤ length work.old) }
    ensures { LinesCounted cluster horizontal (ruling rulings.now) set.now
        result.rulings result.lines }
{
    // Opened for the proof: at most 4,096 are chosen.
    let _ = &rulings.chosen;
    let n = collect(rulings, set, horizontal, keys);
    let lines = lines::lines(&keys[..n], cluster, order, work);
    Count { rulings: n, lines }
}

// The set minima, and two lines each way.
fn is_table(limits: Limits, h: Count, v: Count) -> bool
    ensures { result ≡ leb limits.min_horizontal h.rulings && leb limits.min_vertical v.rulings && leb 2 h.lines && leb 2 v.lines }
{
    (limits.min_horizontal as usize <= h.rulings)
        & (limits.min_vertical as usize <= v.rulings)
        & (2 <= h.lines)
        & (2 <= v.lines)
}

// Is the set a table, and how many lines has it each way? No `Option` of the two counts: the lines of a set that is no table are promised
// too.
#[derive(Clone, Copy)]
pub struct Shape {
    pub table: bool,
    pub row_lines: usize,
    pub column_lines: usize,
}

pub fn shape_of(
    rulings: &Rulings,
    set: &[u32],
    limits: Limits,
    keys: &mut [u64],
    order: &mut [u32],
    work: &mut [u32],
) -> Shape
    requires { IndexesBelow (length rulings.now.chosen) set.now × (length set.now ≤ length keys.old)
        × (length set.now ≤ length order.old) × (length set.now ≤ length work.old) }
    ensures { Shaped limits (ruling rulings.now) set.now result.table
        result.row_lines result.column_lines }
{
    let h = count_lines(rulings, set, true, limits.cluster, keys, order, work);
    let v = count_lines(rulings, set, false, limits.cluster, keys, order, work);
    Shape {
        table: is_table(limits, h, v),
        row_lines: h.lines,
        column_lines: v.lines,
    }
}
