// The finding of the free rules, one if at least min_free_rules are free.
#![tactic(auto)]

ghost use Rattle.std.specs.Prelude.{◌≡◌, ◌+◌, ◌≤◌, ◌<◌, leb, length};
ghost use Rattle.lists.specs.Lists.{one, written};
ghost use Rattle.finding_lists.specs.Columns.{columns_of};
ghost use Rattle.finding_lists.specs.Steps.{Wrote, RanksGiven, SameFindings};
ghost use Rattle.findings.specs.Steps.{free_keys, NumbersGiven, RectsGiven, AllGiven, KeysStored};
ghost use Rattle.findings.specs.Made.{free_places, free_of, free_count_of};

use evidence::finding::{Finding, KindName};
use finding_lists::lent::LentFindings;
use finding_lists::put;
use findings::places;
use findings::sources::{RulingLists, Scan};
use params::settings::RulingsParams;

// The places of the free rulings among all: the free list holds places among the printed ones.
pub fn list(printed: &[u32], free: &[u32], out: &mut [u32])
    requires { NumbersGiven printed.now free.now × (length free.now ≤ length out.old) }
    ensures { out.new ≡ written (free_places printed.now free.now) out.old }
{
    for (k, &i) in free.iter().enumerate() {
        out[k] = printed[i as usize];
    }
}

// How many findings so many free rulings make.
fn made(p: RulingsParams, count: usize) -> usize
    ensures { result ≡ one (leb p.min_free_rules count) }
{
    usize::from(p.min_free_rules as usize <= count)
}

// The key of the free rules' finding, stored at place `at` of the list if there is one, and how many there are.
pub fn keys(scan: &Scan, rects: &[u32], places: &[u32], at: usize, keys: &mut [u64]) -> usize
    requires { (1 ≤ scan.now.settings.min_free_rules) × RectsGiven scan.now.sides.w scan.now.sides.h rects.now places.now
        × (at + free_count_of scan.now.settings places.now ≤ length keys.old) }
    ensures { KeysStored (free_keys scan.now.sides scan.now.shear scan.now.shear_x scan.now.settings rects.now places.now) at
        keys.old keys.new result }
{
    let n = made(scan.settings, places.len());
    lists::put_all(
        |_| scan.key_around(rects, places, KindName::FreeRules),
        n,
        at,
        keys,
    );
    n
}

// The finding of the free rules, which are the rulings at some places.
pub fn finding(scan: &Scan, rulings: &RulingLists, places: &[u32]) -> Finding
    requires { (0 < length places.now) × AllGiven scan.now.sides.w scan.now.sides.h rulings.now.rects rulings.now.directions
        rulings.now.contrasts places.now }
    ensures { result ≡ free_of scan.now rulings.now places.now }
{
    let settings = scan.settings;
    let bbox = scan.around(rulings.rects, places);
    let count = places.len();
    // 0 for horizontal, as C's list of directions holds it.
    let horizontal = places::count_equal(rulings.directions, places, 0);
    let vertical = count - horizontal;
    let longest = places::longest(rulings.rects, rulings.directions, places);
    let mean = places::mean(rulings.contrasts, places);
    evidence::kinds::free_finding(
        settings,
        scan.caps,
        bbox,
        count as u32,
        horizontal as u32,
        vertical as u32,
        longest,
        mean,
    )
}

// Stores the finding of the free rules, if there is one, at its rank, which stands at place `at`, and tells whether every evidence number
// is finite.
pub fn write(
    scan: &Scan,
    rulings: &RulingLists,
    places: &[u32],
    ranks: &[u32],
    at: usize,
    lists: &mut LentFindings,
) -> bool
    requires given { (1 ≤ scan.now.settings.min_free_rules) × AllGiven scan.now.sides.w scan.now.sides.h rulings.now.rects
        rulings.now.directions rulings.now.contrasts places.now }
    requires ranks_given { RanksGiven ranks.now at (free_count_of scan.now.settings places.now) (columns_of lists.old) }
    ensures wrote { Wrote (λ k. free_of scan.now rulings.now places.now) (free_count_of scan.now.settings places.now) ranks.now at
        (columns_of lists.old)
        (columns_of lists.new) result }
    ensures same { SameFindings lists.old lists.new }
{
    let n = made(scan.settings, places.len());
    put::put_all(|_| finding(scan, rulings, places), n, ranks, at, lists)
}
