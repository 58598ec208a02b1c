// A finding read back from a place of its lists.
#![tactic(auto)]

ghost use Rattle.std.specs.Prelude.{◌≡◌, [], ◌∷◌, ◌<◌, length, get_or};
ghost use Rattle.std.specs.Float.{nan};
ghost use Rattle.read_findings.specs.Read.{finding_with, fold_of, finding_of, all_long, row_at, finding_at};
ghost use Rattle.read_findings.specs.Steps.{Standing};

pub mod lent;

use evidence::finding::{Evidence, Finding, Kind, KindName, Row};
use layout::rect::PageRect;
use lent::FindingLists;

// The finding of a row, with what its kind has.
fn with_kind(row: Row, kind: Kind) -> Finding
    ensures { result ≡ finding_with row kind }
{
    Finding {
        log_odds: row.log_odds,
        bbox: row.bbox,
        first: row.first,
        kind,
    }
}

// A fold has one of two directions, 0 or 1 as C's list holds it.
fn fold_of(row: Row) -> Option<Finding>
    ensures { result ≡ fold_of row }
{
    let length = row.length;
    match row.a {
        0 => Some(with_kind(
            row,
            Kind::Fold {
                vertical: false,
                length,
            },
        )),
        1 => Some(with_kind(
            row,
            Kind::Fold {
                vertical: true,
                length,
            },
        )),
        _ => None,
    }
}

// The row's kind is a number that comes from C's lists, which may hold any.
#[tactic(auto, unfolding(crate::specs::Read::finding_of))]
pub fn finding_of(row: Row) -> Option<Finding>
    ensures { result ≡ finding_of row }
{
    let second = row.second;
    match KindName::try_from(row.kind) {
        Ok(KindName::Table) => Some(with_kind(
            row,
            Kind::Table {
                rows: row.a,
                columns: row.b,
                rulings: row.c,
                second,
            },
        )),
        Ok(KindName::FreeRules) => Some(with_kind(
            row,
            Kind::FreeRules {
                horizontal: row.a,
                vertical: row.b,
                longest: row.c,
                second,
            },
        )),
        Ok(KindName::Grid) => Some(with_kind(
            row,
            Kind::Grid {
                boxes: row.a,
                ticked: row.b,
                second,
            },
        )),
        Ok(KindName::Fold) => fold_of(row),
        Err(_) => None,
    }
}

// Has each of four lists an entry i?
fn four_long<T>(p: &[T], q: &[T], r: &[T], s: &[T], i: usize) -> bool
    ensures { result ≡ all_long 4 i (p.now ∷ q.now ∷ r.now ∷ s.now ∷ []) }
{
    (i < p.len()) & (i < q.len()) & (i < r.len()) & (i < s.len())
}

// Evidence i of three lists.
fn evidence_at(values: &[f64], thresholds: &[f64], llrs: &[f64], i: usize) -> Evidence
    requires { (i < length values.now) × (i < length thresholds.now) × (i < length llrs.now) }
    ensures { result ≡ record {
      value = get_or values.now i nan;
      threshold = get_or thresholds.now i nan;
      llr = get_or
          llrs.now i nan;
    } }
{
    Evidence {
        value: values[i],
        threshold: thresholds[i],
        llr: llrs[i],
    }
}

// The row at place i.
fn row_at(lists: &FindingLists, i: usize) -> Row
    requires { Standing lists.now i }
    ensures { result ≡ row_at lists.now i }
{
    // Two types on purpose: the list holds rectangles of the page, and what reads a list gives those of the levelled picture.
    let r = rects::rect_at(lists.rects, i);
    let bbox = PageRect {
        x0: r.x0,
        y0: r.y0,
        x1: r.x1,
        y1: r.y1,
    };
    let first = evidence_at(
        lists.first_values,
        lists.first_thresholds,
        lists.first_llrs,
        i,
    );
    let second = evidence_at(
        lists.second_values,
        lists.second_thresholds,
        lists.second_llrs,
        i,
    );
    Row {
        bbox,
        kind: lists.kinds[i],
        a: lists.a[i],
        b: lists.b[i],
        c: lists.c[i],
        log_odds: lists.log_odds[i],
        first,
        second,
        length: lists.lengths[i],
    }
}

// The finding at place i of `count`. Places past the count or past the end of a list have none. The count stands beside the lists, since
// these are lent and may be longer.
pub fn finding_at(lists: &FindingLists, count: usize, i: usize) -> Option<Finding>
    ensures { result ≡ finding_at lists.now count i }
{
    let whole = (i < lists.rects.len() / 4) & four_long(lists.kinds, lists.a, lists.b, lists.c, i);
    // The scores are asked for in two halves.
    let scored = four_long(
        lists.log_odds,
        lists.first_values,
        lists.first_thresholds,
        lists.first_llrs,
        i,
    ) & four_long(
        lists.second_values,
        lists.second_thresholds,
        lists.second_llrs,
        lists.lengths,
        i,
    );
    if (i < count) & whole & scored {
        let row = row_at(lists, i);
        return finding_of(row);
    }
    None
}
