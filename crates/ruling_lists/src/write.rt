// What is written: the sets in the order of their rulings, and each ruling.
ghost use Rattle.std.specs.Prelude.{◌≤◌, length};
ghost use Rattle.listings.specs.Listed.{set_of};
ghost use Rattle.ruling_lists.specs.Steps.{Parts, parts_of, in_order, Strung, RoomForSets, Described, RoomForRulings, Picture};

use listings::listed::Sets;
use paper::Raster;

// Strings the sets of a listing together, in the given order, with their ends.
pub fn write_sets(order: &[u32], sets: &Sets, members: &mut [u32], ends: &mut [u32])
    requires { (sets.now.count ≤ length order.now)
        × RoomForSets (in_order (set_of sets.now) sets.now.count order.now) members.old ends.old }
    ensures { Strung (in_order (set_of sets.now) sets.now.count order.now)
        members.old ends.old members.new ends.new }
{
    let mut at = 0;
    for place in 0..sets.count {
        let set = sets.at(order[place] as usize);
        at = lists::append(set, members, at);
        ends[place] = at as u32;
    }
}

// Writes the ruling of each set.
pub fn write_rulings(
    raster: &Raster,
    pieces: &[u32],
    sets: &Sets,
    rects: &mut [u32],
    directions: &mut [u32],
    contrasts: &mut [f64],
)
    requires { Picture raster.now pieces.now × Parts pieces.now (set_of sets.now) sets.now.count
        × RoomForRulings sets.now.count rects.old directions.old contrasts.old }
    ensures { Described raster.now pieces.now (parts_of (set_of sets.now) sets.now.count)
        rects.old directions.old contrasts.old rects.new directions.new contrasts.new }
{
    for k in 0..sets.count {
        let set = sets.at(k);
        let r = crate::ruling::ruling_of(raster, pieces, set);
        rects::put_rect(rects, k, r.rect);
        directions[k] = r.direction();
        contrasts[k] = r.contrast;
    }
}
