// The level of the paper: the median of samples that are given by 256 counts.
ghost use Rattle.std.specs.Prelude.{◌≡◌, List, ℕ, ◌<◌, ◌≤◌, ◌^◌, length};
ghost use Rattle.paper.specs.Steps.{Tallied, TallyOf};
ghost use Rattle.paper.specs.Median.{median};

// Goes down from 255, since paper is bright, until half the samples, rounded up, are at least as bright. A `while`: what
// ends it is what was counted and not a level, so a range would be no plainer.
pub fn level(counts: &[u32], n: usize) -> u8
    requires { (n < 2 ^ 32) × (256 ≤ length counts.now) × TallyOf n counts.now }
    ensures { (xs : List ℕ) → length xs ≡ n → Tallied xs counts.now → result ≡ median xs }
{
    let half = n - n / 2;
    let mut v = 255u8;
    let mut at_least = counts[255] as usize;
    while at_least < half {
        v -= 1;
        at_least += counts[usize::from(v)] as usize;
    }
    v
}
