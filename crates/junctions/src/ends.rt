// The joined ends of a set's rulings, and their share. The members are put in the order of their doubled centres, so that each end is held
// only against those that are near enough.
ghost use Rattle.std.specs.Prelude.{◌≡◌, ◌+◌, ◌<◌, ◌≤◌, length, get_or};
ghost use Rattle.lists.specs.Lists.{any, one};
ghost use Rattle.meeting.specs.Segments.{ruling, joins_end};
ghost use Rattle.meeting.specs.Meeting.{end_joined, joined_ends, share_of};
ghost use Rattle.meeting.specs.Steps.{IndexesBelow};
ghost use Rattle.junctions.specs.Steps.{centre_key, first_key, last_key, MembersOrdered};

use meeting::segment::{Rulings, Segment};

// Where a ruling stands among the members of its set.
fn key_of(a: Segment) -> u64
    ensures { result ≡ centre_key a }
{
    sorted::offset(a.horizontal) + u64::from(a.centre2)
}

// The first and the last key of those that may join an end of ruling a.
fn first_key(a: Segment, end: u32, join: u32) -> u64
    ensures { result ≡ first_key join end a }
{
    let across = sorted::offset(!a.horizontal);
    across + (2 * u64::from(end)).saturating_sub(2 * u64::from(join) + 2)
}

fn last_key(a: Segment, end: u32, join: u32) -> u64
    ensures { result ≡ last_key join end a }
{
    let across = sorted::offset(!a.horizontal);
    across + (2 * u64::from(end) + (2 * u64::from(join) + 2))
}

// The key of the member at place k of the set.
fn key_at(rulings: &Rulings, set: &[u32], k: usize) -> u64
    requires { IndexesBelow (length rulings.now.chosen) set.now × (k < length set.now) }
    ensures { result ≡ centre_key (ruling rulings.now (get_or set.now k 0)) }
{
    key_of(rulings.at(set[k] as usize))
}

// Is an end of ruling a joined by a member of the set? Only those with a key between the first and the last can join it. That they stand in
// order is a fact of the lists beside them: these are lent to sort in, and a struct would be made anew for each set.
fn joined(
    rulings: &Rulings,
    set: &[u32],
    keys: &[u64],
    order: &[u32],
    join: u32,
    a: Segment,
    end: u32,
) -> bool
    requires { IndexesBelow (length rulings.now.chosen) set.now
        × MembersOrdered (ruling rulings.now) set.now keys.now order.now }
    ensures { result ≡ any (λ j. joins_end join end a (ruling rulings.now j)) set.now }
{
    let n = set.len();
    let last = last_key(a, end, join);
    let first = sorted::first_at_least(keys, order, n, first_key(a, end, join));
    for k in first..n {
        let m = order[k] as usize;
        if last < keys[m] {
            return false;
        }
        if rulings.joined_by(end, a, set[m] as usize, join) {
            return true;
        }
    }
    false
}

// How many of the two ends of the ruling at index i are joined by members of the set.
fn joined_of(
    rulings: &Rulings,
    set: &[u32],
    keys: &[u64],
    order: &[u32],
    join: u32,
    i: usize,
) -> usize
    requires { IndexesBelow (length rulings.now.chosen) set.now
        × MembersOrdered (ruling rulings.now) set.now keys.now order.now × (i < length rulings.now.chosen) }
    ensures { result ≡ one (end_joined join (ruling rulings.now) set.now
        (ruling rulings.now i).start i)
        + one (end_joined join (ruling rulings.now) set.now
        (ruling rulings.now i).end i) }
{
    let a = rulings.at(i);
    let start = joined(rulings, set, keys, order, join, a, a.start);
    let end = joined(rulings, set, keys, order, join, a, a.end);
    usize::from(start) + usize::from(end)
}

fn joined_ends(rulings: &Rulings, set: &[u32], keys: &[u64], order: &[u32], join: u32) -> usize
    requires { IndexesBelow (length rulings.now.chosen) set.now
        × MembersOrdered (ruling rulings.now) set.now keys.now order.now }
    ensures { result ≡ joined_ends join (ruling rulings.now) set.now }
{
    let mut joined = 0;
    for i in set {
        joined += joined_of(rulings, set, keys, order, join, *i as usize);
    }
    joined
}

// Joined ends over all ends. The last three lists are lent to sort in, with a place for each member of the set.
pub fn share(
    rulings: &Rulings,
    set: &[u32],
    join: u32,
    order: &mut [u32],
    work: &mut [u32],
    keys: &mut [u64],
) -> f64
    requires known { IndexesBelow (length rulings.now.chosen) set.now }
    requires room { (length set.now ≤ length order.old) × (length set.now ≤ length work.old) × (length set.now ≤ length keys.old) }
    ensures { result ≡ share_of join (ruling rulings.now) set.now }
{
    // Opened for the proof: at most 4,096 are chosen, so that both counts are exact as floats.
    let _ = &rulings.chosen;
    sorted::arrange_by(|k| key_at(rulings, set, k), set.len(), order, work, keys);
    let joined = joined_ends(rulings, set, keys, order, join);
    // By `as`, since there is no `From` from usize to f64.
    joined as f64 / (2 * set.len()) as f64
}
