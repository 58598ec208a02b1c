// The findings of the grids: sets of boxes, read from the lists of a listing by their numbers.
#![tactic(auto)]

ghost use Rattle.std.specs.Prelude.{◌≡◌, map, ◌+◌, ◌<◌, ◌≤◌, length, get_or};
ghost use Rattle.std.proofs.lemmas.List.Edits.{sets};
ghost use Rattle.sets.specs.Listing.{members_of};
ghost use Rattle.finding_lists.specs.Columns.{columns_of};
ghost use Rattle.finding_lists.specs.Steps.{Wrote, RanksGiven, SameFindings};
ghost use Rattle.findings.specs.Steps.{grid_key, AllGiven, GridRectsGiven, GridsGiven};
ghost use Rattle.findings.specs.Made.{grid_of};
ghost use Rattle.grid_findings.specs.Boxes.{sets_of};

pub mod sources;

use evidence::finding::{Finding, KindName};
use finding_lists::lent::LentFindings;
use finding_lists::put;
use findings::places;
use findings::sources::Scan;
use sources::BoxLists;

// The members of grid k.
fn set_at<'b>(boxes: &'b BoxLists, k: usize) -> &'b [u32]
    requires { k < length boxes.now.grids }
    ensures { result.now ≡ sets_of boxes.now (get_or boxes.now.grids k 0) }
{
    let sets = &boxes.sets;
    sets.at(boxes.grids[k] as usize)
}

// The keys of the grids' findings, from place `at` of the list on.
pub fn keys(scan: &Scan, boxes: &BoxLists, at: usize, keys: &mut [u64])
    requires { GridRectsGiven scan.now.sides.w scan.now.sides.h boxes.now.rects (sets_of boxes.now) boxes.now.grids
        × (at + length boxes.now.grids ≤ length keys.old) }
    ensures { keys.new ≡ sets keys.old at
        (map (λ n. grid_key scan.now.sides scan.now.shear scan.now.shear_x boxes.now.rects (sets_of boxes.now n)) boxes.now.grids) }
{
    lists::put_all(
        |k| scan.key_around(boxes.rects, set_at(boxes, k), KindName::Grid),
        boxes.grids.len(),
        at,
        keys,
    );
}

// The finding of the grid that is a set of boxes. A box is ticked where its mark is 1, as C's list of marks holds it.
pub fn finding(scan: &Scan, boxes: &BoxLists, set: &[u32]) -> Finding
    requires { (0 < length set.now) × AllGiven scan.now.sides.w scan.now.sides.h boxes.now.rects boxes.now.marks
        boxes.now.coverages set.now }
    ensures { result ≡ grid_of scan.now boxes.now.rects boxes.now.marks boxes.now.coverages set.now }
{
    let bbox = scan.around(boxes.rects, set);
    let ticked = places::count_equal(boxes.marks, set, 1) as u32;
    let mean = places::mean(boxes.coverages, set);
    evidence::kinds::grid_finding(
        scan.settings,
        scan.caps,
        bbox,
        set.len() as u32,
        ticked,
        mean,
    )
}

// The finding of grid k.
fn finding_at(scan: &Scan, boxes: &BoxLists, k: usize) -> Finding
    requires { GridsGiven scan.now.sides.w scan.now.sides.h boxes.now.rects boxes.now.marks boxes.now.coverages (sets_of boxes.now)
        boxes.now.grids × (k < length boxes.now.grids) }
    ensures { result ≡ grid_of scan.now boxes.now.rects boxes.now.marks boxes.now.coverages (sets_of boxes.now (get_or boxes.now.grids k 0)) }
{
    finding(scan, boxes, set_at(boxes, k))
}

// Stores the grids' findings at their ranks, which stand from place `at` on, and tells whether every evidence number is finite.
pub fn write(
    scan: &Scan,
    boxes: &BoxLists,
    ranks: &[u32],
    at: usize,
    lists: &mut LentFindings,
) -> bool
    requires given { GridsGiven scan.now.sides.w scan.now.sides.h boxes.now.rects boxes.now.marks boxes.now.coverages (sets_of boxes.now)
        boxes.now.grids }
    requires ranks_given { RanksGiven ranks.now at (length boxes.now.grids) (columns_of lists.old) }
    ensures wrote { Wrote (λ k. grid_of scan.now boxes.now.rects boxes.now.marks boxes.now.coverages (sets_of boxes.now (get_or boxes.now.grids k 0)))
        (length boxes.now.grids) ranks.now at
        (columns_of lists.old)
        (columns_of lists.new) result }
    ensures same { SameFindings lists.old lists.new }
{
    put::put_all(
        |k| finding_at(scan, boxes, k),
        boxes.grids.len(),
        ranks,
        at,
        lists,
    )
}
