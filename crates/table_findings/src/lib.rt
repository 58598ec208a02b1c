// The findings of the tables.
#![tactic(auto)]

ghost use Rattle.std.specs.Prelude.{◌≡◌, map, ◌+◌, ◌<◌, ◌≤◌, length};
ghost use Rattle.std.proofs.lemmas.List.Edits.{sets};
ghost use Rattle.lists.specs.Lists.{below};
ghost use Rattle.rects.specs.Rects.{count};
ghost use Rattle.rects.specs.Steps.{AllInside};
ghost use Rattle.finding_lists.specs.Columns.{columns_of};
ghost use Rattle.finding_lists.specs.Steps.{Wrote, RanksGiven, SameFindings};
ghost use Rattle.findings.specs.Steps.{table_key, TablesGiven};
ghost use Rattle.findings.specs.Made.{table_at};

use evidence::finding::{Finding, KindName};
use finding_lists::lent::LentFindings;
use finding_lists::put;
use findings::sources::{Scan, TableLists};

// The keys of the tables' findings, from place `at` of the list on.
pub fn keys(scan: &Scan, bounds: &[u32], at: usize, keys: &mut [u64])
    requires { AllInside scan.now.sides.w scan.now.sides.h bounds.now × (at + count bounds.now ≤ length keys.old) }
    ensures { keys.new ≡ sets keys.old at
        (map (table_key scan.now.sides scan.now.shear scan.now.shear_x bounds.now) (below (count bounds.now))) }
{
    lists::put_all(
        |k| scan.key(rects::rect_at(bounds, k), KindName::Table),
        bounds.len() / 4,
        at,
        keys,
    );
}

// The finding of table k.
pub fn finding(scan: &Scan, tables: &TableLists, k: usize) -> Finding
    requires { TablesGiven scan.now.sides.w scan.now.sides.h tables.now.bounds tables.now.rows tables.now.columns tables.now.rulings
        tables.now.shares × (k < count tables.now.bounds) }
    ensures { result ≡ table_at scan.now tables.now k }
{
    let bbox = scan.on_page(rects::rect_at(tables.bounds, k));
    evidence::kinds::table_finding(
        scan.settings,
        scan.caps,
        bbox,
        tables.rows[k],
        tables.columns[k],
        tables.rulings[k],
        tables.shares[k],
    )
}

// Stores the tables' findings at their ranks, which stand from place `at` on, and tells whether every evidence number is finite.
pub fn write(
    scan: &Scan,
    tables: &TableLists,
    ranks: &[u32],
    at: usize,
    lists: &mut LentFindings,
) -> bool
    requires given { TablesGiven scan.now.sides.w scan.now.sides.h tables.now.bounds tables.now.rows tables.now.columns tables.now.rulings
        tables.now.shares }
    requires ranks_given { RanksGiven ranks.now at (count tables.now.bounds) (columns_of lists.old) }
    ensures wrote { Wrote (table_at scan.now tables.now) (count tables.now.bounds) ranks.now at
        (columns_of lists.old)
        (columns_of lists.new) result }
    ensures same { SameFindings lists.old lists.new }
{
    put::put_all(
        |k| finding(scan, tables, k),
        tables.bounds.len() / 4,
        ranks,
        at,
        lists,
    )
}
