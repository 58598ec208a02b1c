// Boxes: which touch, and the closed sets of those that do.
#![tactic(auto)]

mod sweep;

ghost use Rattle.std.specs.Prelude.{◌≡◌, ◌<◌, ◌≤◌, ◌^◌, length, drop};
ghost use Rattle.rects.specs.Rects.{count};
ghost use Rattle.sets.specs.Closed.{Below};
ghost use Rattle.sets.specs.Steps.{Joins, Room};
ghost use Rattle.sorted.specs.Steps.{SortRoom};
ghost use Rattle.box_sets.specs.Boxes.{Touch};
ghost use Rattle.box_widths.specs.Steps.{PassedBoxes};
ghost use Rattle.box_sets.specs.Steps.{Connected};

use sweep::Axis;

// Joins every two boxes that touch: those of one column, then those of one row. The other lists are lent to sort in, with a place a box
// each; `order` keeps what stands past those.
fn join_all(
    rects: &[u32],
    limit: u64,
    parents: &mut [u32],
    order: &mut [u32],
    work: &mut [u32],
    keys: &mut [u64],
)
    requires { (limit < 2 ^ 40) × PassedBoxes rects.now × Room (count rects.now) parents.old
        × SortRoom (count rects.now) order.old work.old keys.old }
    ensures { Joins (count rects.now) (Below (count rects.now)) (Touch rects.now limit) parents.new
        × (drop (count rects.now) order.new ≡ drop (count rects.now) order.old) }
{
    sets::begin(parents, rects.len() / 4);
    sweep::join_near(rects, limit, Axis::X, parents, order, work, keys);
    sweep::join_near(rects, limit, Axis::Y, parents, order, work, keys);
}

// Lists the closed sets by smallest index, and returns how many there are. The parents, the work list and the keys are free afterwards.
pub fn connect(
    rects: &[u32],
    limit: u64,
    parents: &mut [u32],
    members: &mut [u32],
    ends: &mut [u32],
    work: &mut [u32],
    keys: &mut [u64],
) -> usize
    requires { (limit < 2 ^ 40) × PassedBoxes rects.now × (count rects.now ≤ length parents.old)
        × (count rects.now ≤ length members.old) × (count rects.now ≤ length ends.old) × (count rects.now ≤ length work.old)
        × (count rects.now ≤ length keys.old) }
    ensures { Connected rects.now limit members.old ends.old members.new ends.new result }
{
    join_all(rects, limit, parents, members, work, keys);
    listings::list(parents, rects.len() / 4, members, ends, work)
}
