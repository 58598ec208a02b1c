// The findings of a page, from what was found on it: places and keys, then ranks, then each kind at its ranks.
#![tactic(auto)]

mod first;
mod sources;

ghost use Rattle.page.specs.Lent.{rules_of, marks_of};
ghost use Rattle.page.specs.Steps.{SameRules, SameMarks};
ghost use Rattle.finding_lists.specs.Columns.{columns_of};
ghost use Rattle.finding_lists.specs.Steps.{SameFindings};
ghost use Rattle.page_findings.specs.Sources.{sources, lists_of};
ghost use Rattle.page_findings.specs.Steps.{Ready, ReadyIn, ReadyToWrite, WroteAll, Left, work_of, KeptRules, KeptMarks};

use finding_lists::lent::LentFindings;
use findings::sources::{RulingLists, Scan, TableLists};
use grid_findings::sources::BoxLists;
use layout::tables::Shears;
use listings::listed::Sets;
use page::counts::Counts;
use page::given::Page;
use page::lent::{LentMarks, LentRules};
use sources::Sources;

// How many findings there are, since the lists that hold them are lent and may be longer, and whether every evidence number is finite.
#[derive(Clone, Copy)]
pub struct Found {
    pub count: usize,
    // A bool: the count is promised either way.
    pub finite: bool,
}

// Stores every finding at its rank, and tells whether every evidence number is finite. Given are the places of the free rulings and of the folds,
// how many findings the free rules make, and the ranks of both runs.
fn write(
    s: &Sources,
    places: &[u32],
    folds: &[u32],
    rules: usize,
    ranks: &[u32],
    grid_ranks: &[u32],
    found: &mut LentFindings,
) -> bool
    requires { ReadyToWrite s.now places.now folds.now rules ranks.now grid_ranks.now (columns_of found.old) }
    ensures found { WroteAll s.now places.now folds.now (columns_of found.old) (columns_of found.new) result }
    ensures same { SameFindings found.old found.new }
{
    let scan = &s.scan;
    let ruled = &s.ruled;
    let tabled = &s.tabled;
    let boxed = &s.boxed;
    let tables = tabled.bounds.len() / 4;
    let finite_tables = table_findings::write(scan, tabled, ranks, 0, found);
    let finite_rules = free_findings::write(scan, ruled, places, ranks, tables, found);
    let finite_folds = fold_findings::write(
        scan,
        s.dpi,
        ruled,
        folds,
        ranks,
        tables + rules,
        found,
    );
    let finite_grids = grid_findings::write(scan, boxed, grid_ranks, 0, found);
    finite_tables & finite_rules & finite_folds & finite_grids
}

// Lists places and keys, ranks both runs, and stores every finding. The work lists hold the places of the free rulings and of the folds, keys, orders
// and ranks.
fn find_from(
    s: &Sources,
    places: &mut [u32],
    folds: &mut [u32],
    keys: &mut [u64],
    grid_keys: &mut [u64],
    order: &mut [u32],
    grid_order: &mut [u32],
    ranks: &mut [u32],
    grid_ranks: &mut [u32],
    found: &mut LentFindings,
) -> Found
    requires { Ready s.now
        (record {
          places = places.old;
          folds = folds.old;
          keys = keys.old;
          grid_keys = grid_keys.old;
          order = order.old;
          grid_order = grid_order.old;
          ranks = ranks.old;
          grid_ranks = grid_ranks.old;
        }) (columns_of found.old) }
    ensures found { Left s.now (columns_of found.old) (columns_of found.new) result.count result.finite }
    ensures same { SameFindings found.old found.new }
{
    let scan = &s.scan;
    let ruled = &s.ruled;
    let tabled = &s.tabled;
    let boxed = &s.boxed;
    let free = s.free.len();
    free_findings::list(s.printed, s.free, places);
    let folded = fold_findings::choose(
        scan.settings,
        s.dpi,
        ruled.rects,
        ruled.directions,
        s.faint,
        folds,
    );
    let rules = first::keys(
        scan,
        tabled.bounds,
        ruled.rects,
        &places[..free],
        &folds[..folded],
        keys,
    );
    grid_findings::keys(scan, boxed, 0, grid_keys);
    let first_run = tabled.bounds.len() / 4 + rules + folded;
    let grids = boxed.grids.len();
    ranks::rank(
        &keys[..first_run],
        &grid_keys[..grids],
        order,
        grid_order,
        ranks,
        grid_ranks,
    );
    let finite = write(
        s,
        &places[..free],
        &folds[..folded],
        rules,
        ranks,
        grid_ranks,
        found,
    );
    Found {
        count: first_run + grids,
        finite,
    }
}

// From the front parts of the lists that hold what was found. One by one, since a struct of lent lists is made from parameters alone.
fn find_of<'x>(
    page: &'x Page,
    n: Counts,
    rects: &'x [u32],
    directions: &'x [u32],
    contrasts: &'x [f64],
    printed: &'x [u32],
    faint: &'x [u32],
    bounds: &'x [u32],
    rows: &'x [u32],
    columns: &'x [u32],
    rulings: &'x [u32],
    shares: &'x [f64],
    free: &'x [u32],
    boxes: &'x [u32],
    marks: &'x [u32],
    coverages: &'x [f64],
    members: &'x [u32],
    ends: &'x [u32],
    numbers: &'x [u32],
    places: &mut [u32],
    folds: &mut [u32],
    keys: &mut [u64],
    grid_keys: &mut [u64],
    order: &mut [u32],
    grid_order: &mut [u32],
    ranks: &mut [u32],
    grid_ranks: &mut [u32],
    found: &mut LentFindings,
) -> Found
    requires { ReadyIn page.now n
        (record {
          rects = rects.now;
          directions = directions.now;
          contrasts = contrasts.now;
          printed = printed.now;
          faint = faint.now;
          bounds = bounds.now;
          rows = rows.now;
          columns = columns.now;
          rulings = rulings.now;
          shares = shares.now;
          free = free.now;
          boxes = boxes.now;
          marks = marks.now;
          coverages = coverages.now;
          members = members.now;
          ends = ends.now;
          numbers = numbers.now;
        })
        (record {
          places = places.old;
          folds = folds.old;
          keys = keys.old;
          grid_keys = grid_keys.old;
          order = order.old;
          grid_order = grid_order.old;
          ranks = ranks.old;
          grid_ranks = grid_ranks.old;
        }) (columns_of found.old) }
    ensures found { Left (sources page.now n
        (record {
          rects = rects.now;
          directions = directions.now;
          contrasts = contrasts.now;
          printed = printed.now;
          faint = faint.now;
          bounds = bounds.now;
          rows = rows.now;
          columns = columns.now;
          rulings = rulings.now;
          shares = shares.now;
          free = free.now;
          boxes = boxes.now;
          marks = marks.now;
          coverages = coverages.now;
          members = members.now;
          ends = ends.now;
          numbers = numbers.now;
        })) (columns_of found.old) (columns_of found.new) result.count result.finite }
    ensures same { SameFindings found.old found.new }
{
    let sources = Sources {
        scan: Scan {
            shears: Shears {
                sides: page.sides,
                shear: page.shear,
                shear_x: page.shear_x,
            },
            settings: page.settings,
            caps: page.caps,
        },
        dpi: page.dpi,
        ruled: RulingLists {
            rects: &rects[..4 * n.rulings],
            directions: &directions[..n.rulings],
            contrasts: &contrasts[..n.rulings],
        },
        printed: &printed[..n.printed],
        faint: &faint[..n.faint],
        tabled: TableLists {
            bounds: &bounds[..4 * n.tables],
            rows: &rows[..n.tables],
            columns: &columns[..n.tables],
            rulings: &rulings[..n.tables],
            shares: &shares[..n.tables],
        },
        free: &free[..n.free],
        boxed: BoxLists {
            rects: &boxes[..4 * n.boxes],
            marks: &marks[..n.boxes],
            coverages: &coverages[..n.boxes],
            sets: Sets {
                members,
                ends,
                count: n.box_sets,
            },
            grids: &numbers[..n.grids],
        },
    };
    find_from(
        &sources, places, folds, keys, grid_keys, order, grid_order, ranks, grid_ranks, found,
    )
}

// The findings of a page that was read; of the lists of rulings and of boxes only the work lists change.
pub fn find(
    page: &Page,
    n: Counts,
    rules: &mut LentRules,
    marks: &mut LentMarks,
    found: &mut LentFindings,
) -> Found
    requires { ReadyIn page.now n (lists_of (rules_of rules.old) (marks_of marks.old)) (work_of (rules_of rules.old) (marks_of marks.old)) (columns_of found.old) }
    ensures found { Left (sources page.now n (lists_of (rules_of rules.old) (marks_of marks.old)))
        (columns_of found.old) (columns_of found.new) result.count result.finite }
    ensures kept { KeptRules (rules_of rules.old) (rules_of rules.new) × KeptMarks (marks_of marks.old) (marks_of marks.new) }
    ensures same { SameRules rules.old rules.new × SameMarks marks.old marks.new × SameFindings found.old found.new }
{
    let rects = &mut *rules.rects;
    let directions = &mut *rules.directions;
    let contrasts = &mut *rules.contrasts;
    let printed = &mut *rules.printed;
    let faint = &mut *rules.faint;
    let bounds = &mut *rules.bounds;
    let rows = &mut *rules.rows;
    let columns = &mut *rules.columns;
    let rulings = &mut *rules.rulings;
    let shares = &mut *rules.shares;
    let free = &mut *rules.free;
    let boxes = &mut *marks.boxes;
    let ticks = &mut *marks.marks;
    let coverages = &mut *marks.coverages;
    let members = &mut *marks.members;
    let ends = &mut *marks.ends;
    let numbers = &mut *marks.numbers;
    find_of(
        page,
        n,
        rects,
        directions,
        contrasts,
        printed,
        faint,
        bounds,
        rows,
        columns,
        rulings,
        shares,
        free,
        boxes,
        ticks,
        coverages,
        members,
        ends,
        numbers,
        rules.parents,
        rules.order,
        rules.keys,
        marks.keys,
        rules.listed,
        marks.parents,
        rules.listed_ends,
        marks.order,
        found,
    )
}
