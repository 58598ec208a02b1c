// The closed sets of pieces, and their order.
ghost use Rattle.std.specs.Prelude.{◌≤◌, ◌<◌, ◌^◌, length};
ghost use Rattle.rects.specs.Rects.{count};
ghost use Rattle.rects.specs.Steps.{AllInside};
ghost use Rattle.sets.specs.Steps.{Room};
ghost use Rattle.listings.specs.Listed.{set_of};
ghost use Rattle.ruling_lists.specs.Rulings.{piece_sets};
ghost use Rattle.pieces.specs.Steps.{AllOrdered};
ghost use Rattle.ruling_lists.specs.Steps.{Parts, SetsListed, SetsOrdered};

use listings::listed::Sets;

// Lists the closed sets by smallest index, and returns how many there are. The parents, the work list and the keys are free afterwards; the pieces
// are sorted in the list that then holds the sets.
pub fn list_sets(
    pieces: &[u32],
    across: u32,
    gap: u32,
    parents: &mut [u32],
    listed: &mut [u32],
    listed_ends: &mut [u32],
    work: &mut [u32],
    keys: &mut [u64],
) -> usize
    requires { AllOrdered pieces.now × Room (count pieces.now) parents.old × (count pieces.now ≤ length listed.old)
        × (count pieces.now ≤ length listed_ends.old) × (count pieces.now ≤ length work.old) × (count pieces.now ≤ length keys.old) }
    ensures { SetsListed (piece_sets pieces.now across gap) (count pieces.now)
        listed.old listed_ends.old listed.new listed_ends.new result }
{
    pieces::touch::join_all(pieces, across, gap, parents, listed, work, keys);
    listings::list(parents, pieces.len() / 4, listed, listed_ends, work)
}

// The numbers of the listed sets in the order of their rectangles.
pub fn order_sets(
    pieces: &[u32],
    sets: &Sets,
    order: &mut [u32],
    work: &mut [u32],
    keys: &mut [u64],
)
    requires { AllInside 8192 8192 pieces.now × Parts pieces.now (set_of sets.now) sets.now.count × (sets.now.count < 2 ^ 32)
        × (sets.now.count ≤ length order.old) × (sets.now.count ≤ length work.old) × (sets.now.count ≤ length keys.old) }
    ensures { SetsOrdered pieces.now (set_of sets.now) sets.now.count order.old order.new }
{
    crate::keys::set_keys(pieces, sets, keys);
    sort::sort(&keys[..sets.count], order, work);
}
