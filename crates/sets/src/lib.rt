// Joining of closed sets, for any touching rule. Parents are a lent list of which the first n entries are used; callers know
// them only by what the contracts say of roots.
#![tactic(auto)]

ghost use Rattle.std.specs.Prelude.{◌≡◌, Bool, true, map, ◌<◌};
ghost use Rattle.lists.specs.Lists.{below, written};
ghost use Rattle.sets.specs.Steps.{Room, Parents, root, Found, Joined};

// Each index below n alone: its own parent.
pub fn begin(parents: &mut [u32], n: usize)
    requires { Room n parents.old }
    ensures { parents.new ≡ written (below n) parents.old }
{
    lists::numbers(parents, n);
}

// The root of an index, with path halving. n is there for the contract alone.
pub fn find(parents: &mut [u32], n: usize, index: usize) -> usize
    requires { Parents n parents.old × (index < n) }
    ensures { Found n parents.old index parents.new result }
{
    let mut i = index;
    let mut up = parents[i] as usize;
    // A `while`, since it walks by links.
    while up != i {
        let above = parents[up];
        parents[i] = above;
        i = above as usize;
        up = parents[i] as usize;
    }
    i
}

// The sets of two indexes become one; the smaller root wins.
pub fn join(parents: &mut [u32], n: usize, a: usize, b: usize)
    requires { Parents n parents.old × (a < n) × (b < n) }
    ensures { Joined n parents.old a b true parents.new }
{
    let first = find(parents, n, a);
    let second = find(parents, n, b);
    if first < second {
        parents[second] = first as u32;
    } else {
        parents[first] = second as u32;
    }
}

// Joins the sets of two indexes if they touch, and tells whether they are in one set now. Two with one parent were before, so that `touch` is
// asked only where the parents differ.
pub fn join_if<F: FnOnce() -> bool>(
    parents: &mut [u32],
    n: usize,
    a: usize,
    b: usize,
    touch: F,
) -> bool
    requires given { F.pre touch }
    requires pair { Parents n parents.old × (a < n) × (b < n) }
    ensures joined { (t : Bool) → ((r : Bool) → F.post touch r → r ≡ t) → Joined n parents.old a b t parents.new }
    ensures one { result ≡ true → root parents.new a ≡ root parents.new b }
{
    if parents[a] == parents[b] {
        return true;
    }
    if touch() {
        join(parents, n, a, b);
        return true;
    }
    false
}

// Joins the sets of two indexes if they are known to touch. Those that don't cost no look at the parents.
pub fn join_known(parents: &mut [u32], n: usize, a: usize, b: usize, touch: bool)
    requires { Parents n parents.old × (a < n) × (b < n) }
    ensures { Joined n parents.old a b touch parents.new }
{
    if touch {
        join_if(parents, n, a, b, || true);
    }
}

// Each index below n points at its root, the smallest index of its set.
pub fn flatten(parents: &mut [u32], n: usize)
    requires { Parents n parents.old }
    ensures { parents.new ≡ written (map (root parents.old) (below n)) parents.old }
{
    for i in 0..n {
        let up = parents[i] as usize;
        parents[i] = parents[up];
    }
}
