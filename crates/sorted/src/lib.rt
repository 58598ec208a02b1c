// Indexes in the order of their keys, and the first place in it from which the keys are large enough: what is within bounds is found without
// a look at the rest. The number n of indexes stands beside the lists, since these are lent and may be longer.
#![tactic(auto)]

ghost use Rattle.std.specs.Prelude.{◌≡◌, ℕ, ◌≤◌, ◌<◌, ◌^◌, drop, get_or};
ghost use Rattle.sorted.specs.Steps.{offset, SortRoom, InOrder, FirstAtLeast};

// What is added to the keys of the second of two kinds, so that these stand behind all of the first, whose keys are smaller.
// A bool, since it is a test that each caller has made.
pub fn offset(first: bool) -> u64
    ensures { (result ≡ offset first) × (result ≤ 2 ^ 34) }
{
    if first { 0 } else { 1 << 34 }
}

// The indexes below n in the order of their keys, from the front of `order`, by way of `work`. What stands behind them is kept.
pub fn arrange(keys: &[u64], n: usize, order: &mut [u32], work: &mut [u32])
    requires { SortRoom n order.old work.old keys.now }
    ensures { InOrder n keys.now order.new × (drop n order.new ≡ drop n order.old) }
{
    sort::sort(&keys[..n], order, work);
}

// Writes the key of each index below n, as `key` gives it, and puts the indexes in the order of these.
pub fn arrange_by<F: Fn(usize) -> u64>(
    key: F,
    n: usize,
    order: &mut [u32],
    work: &mut [u32],
    keys: &mut [u64],
)
    requires given { (i : ℕ) → i < n → F.pre key i }
    requires room { SortRoom n order.old work.old keys.old }
    ensures keyed { (i : ℕ) → i < n → F.post key i (get_or keys.new i 0) }
    ensures ordered { InOrder n keys.new order.new }
    ensures kept { drop n order.new ≡ drop n order.old }
{
    lists::put_all(key, n, 0, keys);
    arrange(keys, n, order, work);
}

// The first place whose key is at least the bound; n where there is none.
pub fn first_at_least(keys: &[u64], order: &[u32], n: usize, bound: u64) -> usize
    requires { InOrder n keys.now order.now }
    ensures { FirstAtLeast n keys.now order.now bound result }
{
    let mut low = 0;
    let mut high = n;
    // The library's `partition_point` asks for a test that may be called at any number, and `keys[i]` only at an index:
    // with a `get` in its place it would be no plainer.
    while low < high {
        let middle = low + (high - low) / 2;
        if keys[order[middle] as usize] < bound {
            low = middle + 1;
        } else {
            high = middle;
        }
    }
    low
}
