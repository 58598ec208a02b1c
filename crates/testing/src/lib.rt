// Calls for the differential runs and the bench, which the product does not have: closed sets of
// numbers within a gap and of given pairs (crates `gaps` and `pairs`), and the sort (crate `sort`). The C interface needs
// the answers as they are.
#![tactic(auto)]

ghost use Rattle.std.specs.Prelude.{length};
ghost use Rattle.gaps.specs.Answers.{room_for};
ghost use Rattle.gaps.specs.Gaps.{GapSets};
ghost use Rattle.pairs.specs.Pairs.{PairSets};
ghost use Rattle.order.specs.Order.{Sorts};

#[unsafe(no_mangle)]
pub extern "C" fn testing_gap_sets(
    values: &[u32],
    gap: u32,
    parents: &mut [u32],
    members: &mut [u32],
    ends: &mut [u32],
    work: &mut [u32],
) -> gaps::Answer
    ensures { GapSets values.now gap
        (room_for (length values.now) (length parents.old) (length members.old) (length ends.old)
        (length work.old))
        parents.old members.old ends.old work.old
        parents.new members.new ends.new work.new result.number result.count }
{
    gaps::gap_sets(values, gap, parents, members, ends, work)
}

#[unsafe(no_mangle)]
pub extern "C" fn testing_pair_sets(
    n: usize,
    pairs: &[u32],
    parents: &mut [u32],
    members: &mut [u32],
    ends: &mut [u32],
    work: &mut [u32],
) -> gaps::Answer
    ensures { PairSets n pairs.now
        parents.old members.old ends.old work.old
        parents.new members.new ends.new work.new result.number result.count }
{
    pairs::pair_sets(n, pairs, parents, members, ends, work)
}

#[unsafe(no_mangle)]
pub extern "C" fn testing_sort_indexes(keys: &[u64], out: &mut [u32], work: &mut [u32]) -> bool
    ensures { Sorts keys.now out.old work.old out.new work.new result }
{
    sort::sort_indexes(keys, out, work)
}
