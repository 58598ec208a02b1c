// A finding stored at a place of its lists.
ghost use Rattle.std.specs.Prelude.{◌≡◌, ℕ, [], ◌∷◌, ◌+◌, ◌<◌, length, get_or};
ghost use Rattle.evidence.specs.Finding.{row_of};
ghost use Rattle.finding_lists.specs.Columns.{columns_of};
ghost use Rattle.finding_lists.specs.Steps.{Roomy, Stored, WroteOne, Wrote, RanksGiven, SameFindings};

use crate::lent::LentFindings;
use evidence::finding::{Finding, Row};
use layout::rect::PageRect;
use rects::Rect;

// The four numbers of a page rectangle, as a rectangle is stored. `From` would be no plainer: rectangles of the page and of the levelled
// picture are two types so that neither passes for the other.
fn numbers(r: PageRect) -> Rect
    ensures { result ≡ record { x0 = r.x0; y0 = r.y0; x1 = r.x1; y1 = r.y1 } }
{
    Rect {
        x0: r.x0,
        y0: r.y0,
        x1: r.x1,
        y1: r.y1,
    }
}

// Stores a finding at place i of its lists.
pub fn put(f: Finding, i: usize, lists: &mut LentFindings)
    requires { Roomy (i + 1) (columns_of lists.old) }
    ensures stored { Stored (row_of f ∷ []) (i ∷ [])
        (columns_of lists.old)
        (columns_of lists.new) }
    ensures same { SameFindings lists.old lists.new }
{
    let row = Row::from(f);
    rects::put_rect(lists.rects, i, numbers(row.bbox));
    lists.kinds[i] = row.kind;
    lists.a[i] = row.a;
    lists.b[i] = row.b;
    lists.c[i] = row.c;
    lists.log_odds[i] = row.log_odds;
    lists.first_values[i] = row.first.value;
    lists.first_thresholds[i] = row.first.threshold;
    lists.first_llrs[i] = row.first.llr;
    lists.second_values[i] = row.second.value;
    lists.second_thresholds[i] = row.second.threshold;
    lists.second_llrs[i] = row.second.llr;
    lists.lengths[i] = row.length;
}

// Stores a finding at rank k of those given, and tells whether every evidence number of it is finite.
pub fn put_ranked(f: Finding, ranks: &[u32], k: usize, lists: &mut LentFindings) -> bool
    requires { (k < length ranks.now) × Roomy (get_or ranks.now k 0 + 1)
        (columns_of lists.old) }
    ensures wrote { WroteOne f (get_or ranks.now k 0)
        (columns_of lists.old)
        (columns_of lists.new) result }
    ensures same { SameFindings lists.old lists.new }
{
    put(f, ranks[k] as usize, lists);
    evidence::finding::is_finite(f)
}

// Stores n findings, each as `finding` gives it, at their ranks, which stand from place `at` on, and tells whether every evidence number
// is finite. The number stands beside the lists, since these are lent and may be longer.
pub fn put_all<F: Fn(usize) -> Finding>(
    finding: F,
    n: usize,
    ranks: &[u32],
    at: usize,
    lists: &mut LentFindings,
) -> bool
    requires given { (k : ℕ) → k < n → F.pre finding k }
    requires ranks_given { RanksGiven ranks.now at n
        (columns_of lists.old) }
    ensures wrote { (f : ℕ → Finding) → ((k : ℕ) (r : Finding) → k < n → F.post finding k r → r ≡ f k) → Wrote f n ranks.now at
        (columns_of lists.old)
        (columns_of lists.new) result }
    ensures same { SameFindings lists.old lists.new }
{
    let mut all = true;
    for k in 0..n {
        all = all & put_ranked(finding(k), ranks, at + k, lists);
    }
    all
}
