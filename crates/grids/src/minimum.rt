// Which sets reach the grid minimum.
ghost use Rattle.std.specs.Prelude.{◌^◌, ◌<◌, ◌≤◌, length};
ghost use Rattle.listings.specs.Listed.{set_of};
ghost use Rattle.grids.specs.Steps.{Chose};

use listings::listed::Sets;

// Writes the number of each set that has at least so many boxes, and returns how many there are.
pub fn choose(sets: &Sets, least: u32, numbers: &mut [u32]) -> usize
    requires { (sets.now.count < 2 ^ 32) × (sets.now.count ≤ length numbers.old) }
    ensures { Chose least (set_of sets.now) sets.now.count numbers.old numbers.new result }
{
    // The number steps by hand, since only what is listed counts.
    let mut grids = 0;
    for k in 0..sets.count {
        let set = sets.at(k);
        if least as usize <= set.len() {
            numbers[grids] = k as u32;
            grids += 1;
        }
    }
    grids
}
