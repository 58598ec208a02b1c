// Question 14: has every lent list its room?
ghost use Rattle.std.specs.Prelude.{◌≡◌, ◌*◌, ◌<◌, ◌^◌, true};
ghost use Rattle.rects.specs.Rects.{count};
ghost use Rattle.layout.specs.Sides.{sides_fit};
ghost use Rattle.finding_lists.specs.Columns.{columns_of};
ghost use Rattle.page.specs.Lent.{rules_of, marks_of, lent, rulings_fit, tables_fit, boxes_fit, findings_fit, work_fits, has_room};

use crate::given::Page;
use crate::lent::{LentMarks, LentRules};
use finding_lists::lent::LentFindings;

// Of n rulings, with the sets of pieces.
pub fn rulings_fit(n: usize, l: &LentRules) -> bool
    requires { 4 * n < 2 ^ 64 }
    ensures { result ≡ rulings_fit n (rules_of l.now) }
{
    (4 * n <= l.rects.len())
        & (n <= l.directions.len())
        & (n <= l.contrasts.len())
        & (n <= l.printed.len())
        & (n <= l.faint.len())
        & (n <= l.piece_members.len())
        & (n <= l.piece_ends.len())
}

// Of n tables, with the sets of printed rulings and the free list.
pub fn tables_fit(n: usize, l: &LentRules) -> bool
    requires { 4 * n < 2 ^ 64 }
    ensures { result ≡ tables_fit n (rules_of l.now) }
{
    (4 * n <= l.bounds.len())
        & (n <= l.rows.len())
        & (n <= l.columns.len())
        & (n <= l.rulings.len())
        & (n <= l.shares.len())
        & (n <= l.free.len())
        & (n <= l.printed_members.len())
        & (n <= l.printed_ends.len())
        & (n <= l.numbers.len())
}

// Of m boxes, with their sets and reading orders.
pub fn boxes_fit(m: usize, l: &LentMarks) -> bool
    requires { 4 * m < 2 ^ 64 }
    ensures { result ≡ boxes_fit m (marks_of l.now) }
{
    (4 * m <= l.boxes.len())
        & (m <= l.marks.len())
        & (m <= l.coverages.len())
        & (m <= l.reading.len())
        & (m <= l.members.len())
        & (m <= l.ends.len())
        & (m <= l.numbers.len())
}

// Of n findings: rectangles, kind and three facts, log odds, two evidences, a fold's length.
pub fn findings_fit(n: usize, l: &LentFindings) -> bool
    requires { 4 * n < 2 ^ 64 }
    ensures { result ≡ findings_fit n (columns_of l.now) }
{
    let facts = (n <= l.kinds.len()) & (n <= l.a.len()) & (n <= l.b.len()) & (n <= l.c.len());
    let scores = (n <= l.log_odds.len())
        & (n <= l.first_values.len())
        & (n <= l.first_thresholds.len())
        & (n <= l.first_llrs.len())
        & (n <= l.second_values.len())
        & (n <= l.second_thresholds.len())
        & (n <= l.second_llrs.len())
        & (n <= l.lengths.len());
    (4 * n <= l.rects.len()) & facts & scores
}

// Of the work lists, for n pieces and m glyph boxes.
pub fn work_fits(n: usize, m: usize, l: &LentRules, k: &LentMarks) -> bool
    ensures { result ≡ work_fits n m (rules_of l.now) (marks_of k.now) }
{
    (n <= l.parents.len())
        & (n <= l.listed.len())
        & (n <= l.listed_ends.len())
        & (n <= l.order.len())
        & (n <= l.keys.len())
        & (m <= k.parents.len())
        & (m <= k.order.len())
        & (m <= k.keys.len())
}

pub fn has_room(page: &Page, rules: &LentRules, marks: &LentMarks, found: &LentFindings) -> bool
    requires { sides_fit page.now.sides ≡ true }
    ensures { result ≡ has_room page.now.sides.w page.now.sides.h (count page.now.pieces) (count page.now.glyphs)
        (lent rules.now marks.now found.now) }
{
    let n = page.pieces.len() / 4;
    let m = page.glyphs.len() / 4;
    layout::sides::raster_fits(page.sides.w, page.sides.h, rules.levelled.len())
        & rulings_fit(n, rules)
        & tables_fit(n, rules)
        & boxes_fit(m, marks)
        & findings_fit(n + m, found)
        & work_fits(n, m, rules, marks)
}
