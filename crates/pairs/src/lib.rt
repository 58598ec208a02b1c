// The closed sets that a list of pairs makes: a caller of `sets` that joins the pairs it is given, in
// linear time. n is given: it may be larger than any number of the list.
#![tactic(auto)]

ghost use Rattle.std.specs.Prelude.{◌≡◌, ◌*◌, ◌/◌, length};
ghost use Rattle.sets.specs.Closed.{Below};
ghost use Rattle.sets.specs.Steps.{Joins, Room};
ghost use Rattle.pairs.specs.Pairs.{indexes_below, IndexesBelow, Paired, PairSets};

use gaps::Answer;

// Is every number of the list an index below n?
fn indexes_below(pairs: &[u32], n: usize) -> bool
    ensures { result ≡ indexes_below n pairs.now }
{
    pairs.iter().all(|index| (*index as usize) < n)
}

// Joins each pair.
fn join_pairs(pairs: &[u32], n: usize, parents: &mut [u32])
    requires { Room n parents.old × IndexesBelow n pairs.now }
    ensures { Joins n (Below n) (Paired pairs.now (length pairs.now / 2)) parents.new }
{
    sets::begin(parents, n);
    let count = pairs.len() / 2;
    for k in 0..count {
        let a = pairs[2 * k] as usize;
        let b = pairs[2 * k + 1] as usize;
        sets::join(parents, n, a, b);
    }
}

// The closed sets of the indexes below n, two of which touch when they stand as a pair of the list. Refused lists are left as
// they were, by the frame of `gaps::gap_sets`, where its reason stands.
pub fn pair_sets(
    n: usize,
    pairs: &[u32],
    parents: &mut [u32],
    members: &mut [u32],
    ends: &mut [u32],
    work: &mut [u32],
) -> Answer
    ensures { PairSets n pairs.now
        parents.old members.old ends.old work.old
        parents.new members.new ends.new work.new result.number result.count }
{
    let fits = gaps::room(n, parents.len(), members.len(), ends.len(), work.len())
        & indexes_below(pairs, n);
    if fits {
        join_pairs(pairs, n, parents);
        let count = listings::list(parents, n, members, ends, work);
        return Answer { number: 0, count };
    }
    Answer {
        number: 1,
        count: 0,
    }
}
