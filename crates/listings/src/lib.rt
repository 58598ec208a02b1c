// Listing of closed sets, for any touching rule, and the members of one set of a listing. A number of entries stands beside
// a list, since the lists are lent and may be longer.
#![tactic(auto)]

pub mod listed;

ghost use Rattle.std.specs.Prelude.{◌≡◌, List, ℕ, ◌≤◌, ◌<◌, length};
ghost use Rattle.sets.specs.Listing.{start_of, members_of};
ghost use Rattle.sets.specs.Steps.{Parents, Listing, Flat, Unthreaded, Threaded, Rising, Trail, Fitting, Appended, Gathered};

// The sets of equal root: members ascending in each set, sets by smallest index, and the end of each; returns how many there are. The
// parents are flat afterwards, and the work list is free.
pub fn list(
    parents: &mut [u32],
    n: usize,
    members: &mut [u32],
    ends: &mut [u32],
    work: &mut [u32],
) -> usize
    requires { Parents n parents.old × (n ≤ length members.old) × (n ≤ length ends.old) × (n ≤ length work.old) }
    ensures { Listing n parents.old members.old ends.old parents.new members.new ends.new result }
{
    sets::flatten(parents, n);
    lists::fill(work, n, 0);
    thread(parents, n, work);
    gather_all(parents, n, work, members, ends)
}

// Going down, each member goes in behind its root: so it points at the next larger member, and the last one at 0.
fn thread(parents: &[u32], n: usize, next: &mut [u32])
    requires { Flat n parents.now × Unthreaded n next.old }
    ensures { Threaded n parents.now next.new }
{
    for i in (0..n).rev() {
        let root = parents[i] as usize;
        if root != i {
            next[i] = next[root];
            next[root] = i as u32;
        }
    }
}

// Writes one thread from place `at` on, and returns its end.
fn gather(next: &[u32], n: usize, members: &mut [u32], root: usize, at: usize) -> usize
    requires { Rising n next.now × (root < n) × Fitting next.now root members.old at }
    ensures { (t : List ℕ) → Trail next.now root t → Appended members.old at t members.new result }
{
    let mut i = root;
    let mut end = at;
    // A `loop`, since it walks by links.
    loop {
        members[end] = i as u32;
        end += 1;
        i = next[i] as usize;
        if i == 0 {
            return end;
        }
    }
}

// Writes the thread of each root, in order, and its end.
fn gather_all(
    parents: &[u32],
    n: usize,
    next: &[u32],
    members: &mut [u32],
    ends: &mut [u32],
) -> usize
    requires { Flat n parents.now × Threaded n parents.now next.now × (n ≤ length members.old) × (n ≤ length ends.old) }
    ensures { Gathered n parents.now members.old ends.old members.new ends.new result }
{
    let mut at = 0;
    // The number steps by hand, since only roots count.
    let mut count = 0;
    for root in 0..n {
        if parents[root] as usize == root {
            at = gather(next, n, members, root, at);
            ends[count] = at as u32;
            count += 1;
        }
    }
    count
}

// The members of one set of a listing, as a part of the member list; empty for a number at or past the count and for bad bounds.
pub fn members_of<'a>(members: &'a [u32], ends: &[u32], count: usize, set: usize) -> &'a [u32]
    ensures { result.now ≡ members_of members.now ends.now count set }
{
    if count <= set {
        return &members[0..0];
    }
    if ends.len() <= set {
        return &members[0..0];
    }
    let start = start_of(ends, set);
    let end = ends[set] as usize;
    if end < start {
        return &members[0..0];
    }
    if members.len() < end {
        return &members[0..0];
    }
    &members[start..end]
}

// Where a set begins among the members.
pub fn start_of(ends: &[u32], set: usize) -> usize
    requires { set < length ends.now }
    ensures { result ≡ start_of ends.now set }
{
    if set == 0 {
        return 0;
    }
    ends[set - 1] as usize
}
