// The closed sets of the chosen rulings. They are put in the order of the horizontal ones' doubled centres, so that each vertical one is held only
// against those that cross its span.
ghost use Rattle.std.specs.Prelude.{◌≡◌, true, ◌+◌, ◌<◌, ◌≤◌, length};
ghost use Rattle.sets.specs.Closed.{Below};
ghost use Rattle.sets.specs.Steps.{Joins, Joined, Parents, Room};
ghost use Rattle.meeting.specs.Segments.{ruling, span_holds};
ghost use Rattle.meeting.specs.Meeting.{Touch};
ghost use Rattle.crossings.specs.Steps.{cross_key, first_centre, last_centre, RulingsOrdered, Tried, Connected};

use meeting::segment;
use meeting::segment::{Rulings, Segment};

// Where a ruling stands in the order: a horizontal one by its doubled centre, and a vertical one behind all of these.
fn key_of(a: Segment) -> u64
    ensures { result ≡ cross_key a }
{
    if a.horizontal {
        u64::from(a.centre2)
    } else {
        16384
    }
}

// The first and the last key of those that a vertical ruling may touch.
fn first_key(b: Segment, join: u32) -> u64
    ensures { result ≡ first_centre join b }
{
    (2 * u64::from(b.start)).saturating_sub(2 * u64::from(join))
}

fn last_key(b: Segment, join: u32) -> u64
    ensures { result ≡ last_centre join b }
{
    (2 * (u64::from(b.end) + u64::from(join))).min(16383)
}

// Joins the rulings at two indexes, of which the second is horizontal, if its span holds the given centre. Two with the same parent are one
// already.
fn join_held(rulings: &Rulings, join: u32, parents: &mut [u32], centre2: u32, i: usize, j: usize)
    requires pair { Parents (length rulings.now.chosen) parents.old
        × (i < length rulings.now.chosen) × (j < length rulings.now.chosen) }
    requires j_value { (ruling rulings.now j).horizontal ≡ true }
    ensures { Joined (length rulings.now.chosen) parents.old i j
        (span_holds join (ruling rulings.now j) centre2) parents.new }
{
    let touch = || segment::span_holds(rulings.horizontal_at(j), centre2, join);
    sets::join_if(parents, rulings.len(), i, j, touch);
}

// Joins the ruling at index i, if it is vertical, with every horizontal one that it touches: those that cross its widened span stand together.
fn join_row(
    rulings: &Rulings,
    keys: &[u64],
    order: &[u32],
    join: u32,
    parents: &mut [u32],
    i: usize,
)
    requires ordered { RulingsOrdered (ruling rulings.now) (length rulings.now.chosen) keys.now order.now
        × (i < length rulings.now.chosen) }
    requires joins { Joins (length rulings.now.chosen) (Below (length rulings.now.chosen)) (Tried join (ruling rulings.now) i) parents.old }
    ensures { Joins (length rulings.now.chosen) (Below (length rulings.now.chosen))
        (Tried join (ruling rulings.now) (i + 1)) parents.new }
{
    let n = rulings.len();
    let b = rulings.at(i);
    if b.horizontal {
        return;
    }
    let past = sorted::first_at_least(keys, order, n, last_key(b, join) + 1);
    let first = sorted::first_at_least(keys, order, n, first_key(b, join));
    for k in first..past {
        join_held(rulings, join, parents, b.centre2, i, order[k] as usize);
    }
}

// Joins every two rulings that touch. It is not inlined: within `tables` the inner loop has too few registers for its lists, and 4,096 that all cross
// take nearly twice as long.
#[inline(never)]
fn join_all(rulings: &Rulings, keys: &[u64], order: &[u32], join: u32, parents: &mut [u32])
    requires { RulingsOrdered (ruling rulings.now) (length rulings.now.chosen) keys.now order.now
        × Room (length rulings.now.chosen) parents.old }
    ensures { Joins (length rulings.now.chosen) (Below (length rulings.now.chosen))
        (Touch join (ruling rulings.now)) parents.new }
{
    let n = rulings.len();
    sets::begin(parents, n);
    for i in 0..n {
        join_row(rulings, keys, order, join, parents, i);
    }
}

// Lists the closed sets of the chosen rulings, and returns how many there are. The rulings are put in order in `members`, before the sets are
// listed there, by way of the parents, before these are begun.
pub fn connect(
    rulings: &Rulings,
    join: u32,
    parents: &mut [u32],
    work: &mut [u32],
    keys: &mut [u64],
    members: &mut [u32],
    ends: &mut [u32],
) -> usize
    requires work_room { (length rulings.now.chosen ≤ length parents.old) × (length rulings.now.chosen ≤ length work.old)
        × (length rulings.now.chosen ≤ length keys.old) }
    requires room { (length rulings.now.chosen ≤ length members.old) × (length rulings.now.chosen ≤ length ends.old) }
    ensures { Connected join (ruling rulings.now) (length rulings.now.chosen)
        members.old ends.old members.new ends.new result }
{
    let n = rulings.len();
    sorted::arrange_by(|k| key_of(rulings.at(k)), n, members, parents, keys);
    join_all(rulings, keys, members, join, parents);
    listings::list(parents, n, members, ends, work)
}
