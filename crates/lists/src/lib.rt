// What several crates do with lent lists. A number n of entries stands beside a list, since the list may be longer than what is
// in use.
#![tactic(auto)]

ghost use Rattle.std.specs.Prelude.{◌≡◌, ℕ, map, ◌+◌, ◌≤◌, ◌<◌, ◌^◌, length, get_or, replicate};
ghost use Rattle.std.proofs.lemmas.List.Edits.{sets};
ghost use Rattle.lists.specs.Lists.{below, written};

// The first n places hold the value; the places past them keep their content. The library's `fill` alone says it of the part.
pub fn fill(list: &mut [u32], n: usize, value: u32)
    requires { n ≤ length list.old }
    ensures { list.new ≡ written (replicate n value) list.old }
{
    list[..n].fill(value);
}

// The first n places hold the numbers from 0 on; the places past them keep their content.
pub fn numbers(list: &mut [u32], n: usize)
    requires { (n ≤ length list.old) × (n < 2 ^ 32) }
    ensures { list.new ≡ written (below n) list.old }
{
    for i in 0..n {
        list[i] = i as u32;
    }
}

// Writes xs from place `at` on, and returns its end. By a loop, since the library's `copy_from_slice` calls `memmove`, which an archive
// for C would then need from outside.
pub fn append(xs: &[u32], list: &mut [u32], at: usize) -> usize
    requires { at + length xs.now ≤ length list.old }
    ensures { (list.new ≡ sets list.old at xs.now) × (result ≡ at + length xs.now) }
{
    for k in 0..xs.len() {
        list[at + k] = xs[k];
    }
    at + xs.len()
}

// Stores n values, each as `value` gives it, from place `at` on.
pub fn put_all<F: Fn(usize) -> u64>(value: F, n: usize, at: usize, list: &mut [u64])
    requires given { (k : ℕ) → k < n → F.pre value k }
    requires room { at + n ≤ length list.old }
    ensures made { (k : ℕ) → k < n → F.post value k (get_or list.new (at + k) 0) }
    ensures all { (g : ℕ → ℕ) → ((k r : ℕ) → k < n → F.post value k r → r ≡ g k) → list.new ≡ sets list.old at (map g (below n)) }
{
    for k in 0..n {
        list[at + k] = value(k);
    }
}
