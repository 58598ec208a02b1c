// The first run of findings: tables, free rules and folds.
ghost use Rattle.std.specs.Prelude.{◌+◌, ◌≤◌, length};
ghost use Rattle.rects.specs.Rects.{count};
ghost use Rattle.rects.specs.Steps.{AllInside};
ghost use Rattle.findings.specs.Made.{free_count_of};
ghost use Rattle.findings.specs.Steps.{RectsGiven, FirstKeyed};

use findings::sources::Scan;

// Lists the keys of the run's findings, and returns how many findings the free rules make.
pub fn keys(
    scan: &Scan,
    bounds: &[u32],
    rects: &[u32],
    places: &[u32],
    folds: &[u32],
    keys: &mut [u64],
) -> usize
    requires { (1 ≤ scan.now.settings.min_free_rules) × AllInside scan.now.sides.w scan.now.sides.h bounds.now
        × RectsGiven scan.now.sides.w scan.now.sides.h rects.now places.now × RectsGiven scan.now.sides.w scan.now.sides.h rects.now folds.now
        × (count bounds.now + free_count_of scan.now.settings places.now + length folds.now ≤ length keys.old) }
    ensures { FirstKeyed scan.now.sides scan.now.shear scan.now.shear_x scan.now.settings bounds.now rects.now places.now folds.now
        keys.old keys.new result }
{
    let tables = bounds.len() / 4;
    table_findings::keys(scan, bounds, 0, keys);
    let rules = free_findings::keys(scan, rects, places, tables, keys);
    fold_findings::keys(scan, rects, folds, tables + rules, keys);
    rules
}
