// The findings of the folds: which faint rulings are folds, their keys, and their findings. A direction is 0 or 1, as C's lists hold it.
#![tactic(auto)]

ghost use Rattle.std.specs.Prelude.{◌≡◌, map, ◌+◌, ◌*◌, ◌<◌, ◌≤◌, length, get_or};
ghost use Rattle.std.proofs.lemmas.List.Edits.{sets};
ghost use Rattle.rects.specs.Rects.{rect_at};
ghost use Rattle.rects.specs.Steps.{Inside};
ghost use Rattle.finding_lists.specs.Columns.{columns_of};
ghost use Rattle.finding_lists.specs.Steps.{Wrote, RanksGiven, SameFindings};
ghost use Rattle.findings.specs.Steps.{fold_key, PlacesGiven, AllGiven, RectsGiven, Front};
ghost use Rattle.findings.specs.Made.{fold_inches, folds, fold_at};

use evidence::finding::{Finding, KindName};
use finding_lists::lent::LentFindings;
use finding_lists::put;
use findings::places;
use findings::sources::{RulingLists, Scan};
use params::settings::RulingsParams;

// The length of the ruling at a place, in inches.
fn inches(dpi: u16, rects: &[u32], directions: &[u32], place: usize) -> f64
    requires { (4 * place + 4 ≤ length rects.now) × Inside 8192 8192 (rect_at rects.now place) × (place < length directions.now) }
    ensures { result ≡ fold_inches dpi rects.now directions.now place }
{
    let length = places::length_of(rects::rect_at(rects, place), directions[place] == 0);
    evidence::kinds::inches(length, dpi)
}

// Lists the places of the folds: the faint rulings that are long enough. The number steps by hand, since only those that are listed count.
pub fn choose(
    p: RulingsParams,
    dpi: u16,
    rects: &[u32],
    directions: &[u32],
    faint: &[u32],
    out: &mut [u32],
) -> usize
    requires { PlacesGiven 8192 8192 rects.now directions.now faint.now × (length faint.now ≤ length out.old) }
    ensures { Front (folds p dpi rects.now directions.now faint.now) out.old out.new result }
{
    let mut n = 0;
    for &place in faint {
        if evidence::kinds::is_fold(p, inches(dpi, rects, directions, place as usize)) {
            out[n] = place;
            n += 1;
        }
    }
    n
}

// The keys of the folds' findings, from place `at` of the list on.
pub fn keys(scan: &Scan, rects: &[u32], folds: &[u32], at: usize, keys: &mut [u64])
    requires { RectsGiven scan.now.sides.w scan.now.sides.h rects.now folds.now × (at + length folds.now ≤ length keys.old) }
    ensures { keys.new ≡ sets keys.old at
        (map (fold_key scan.now.sides scan.now.shear scan.now.shear_x rects.now) folds.now) }
{
    lists::put_all(
        |k| scan.key(rects::rect_at(rects, folds[k] as usize), KindName::Fold),
        folds.len(),
        at,
        keys,
    );
}

// The finding of the fold that is the ruling at a place.
pub fn finding(scan: &Scan, dpi: u16, rulings: &RulingLists, place: usize) -> Finding
    requires { (4 * place + 4 ≤ length rulings.now.rects) × Inside scan.now.sides.w scan.now.sides.h (rect_at rulings.now.rects place)
        × (place < length rulings.now.directions) × (place < length rulings.now.contrasts) }
    ensures { result ≡ fold_at scan.now dpi rulings.now place }
{
    let bbox = scan.on_page(rects::rect_at(rulings.rects, place));
    // A fold's direction is a `bool`: it is what this test finds.
    evidence::kinds::fold_finding(
        scan.settings,
        scan.caps,
        bbox,
        rulings.directions[place] != 0,
        inches(dpi, rulings.rects, rulings.directions, place),
        rulings.contrasts[place],
    )
}

// Stores the folds' findings at their ranks, which stand from place `at` on, and tells whether every evidence number is finite.
pub fn write(
    scan: &Scan,
    dpi: u16,
    rulings: &RulingLists,
    folds: &[u32],
    ranks: &[u32],
    at: usize,
    lists: &mut LentFindings,
) -> bool
    requires given { AllGiven scan.now.sides.w scan.now.sides.h rulings.now.rects rulings.now.directions rulings.now.contrasts folds.now }
    requires ranks_given { RanksGiven ranks.now at (length folds.now) (columns_of lists.old) }
    ensures wrote { Wrote (λ k. fold_at scan.now dpi rulings.now (get_or folds.now k 0)) (length folds.now) ranks.now at
        (columns_of lists.old)
        (columns_of lists.new) result }
    ensures same { SameFindings lists.old lists.new }
{
    put::put_all(
        |k| finding(scan, dpi, rulings, folds[k] as usize),
        folds.len(),
        ranks,
        at,
        lists,
    )
}
