// A finding read back from its lists (crate `read_findings`).
ghost use Rattle.std.specs.Prelude.{◌≡◌};
ghost use Rattle.read_findings.specs.Read.{columns, finding_at};
ghost use Rattle.answers.specs.FindingAt.{of_row, zeros, answer_of};

use evidence::finding::Row;
use read_findings::lent::FindingLists;

// 1 and the finding's numbers, or all 0 where there is none. An `Option` would say it; the C interface needs this form.
#[repr(C)]
#[derive(Clone, Copy, Default)]
pub struct FindingAtAnswer {
    pub found: u32,
    // Its number, as C's list of kinds holds it.
    pub kind: u32,
    pub x0: u32,
    pub y0: u32,
    pub x1: u32,
    pub y1: u32,
    pub a: u32,
    pub b: u32,
    pub c: u32,
    pub log_odds: f64,
    pub first_value: f64,
    pub first_threshold: f64,
    pub first_llr: f64,
    pub second_value: f64,
    pub second_threshold: f64,
    pub second_llr: f64,
    pub length: f64,
}

impl From<Row> for FindingAtAnswer {
    ghost from_gives = { λ row answer. answer ≡ of_row 1 row };

    fn from(row: Row) -> FindingAtAnswer {
        let bbox = row.bbox;
        let first = row.first;
        let second = row.second;
        FindingAtAnswer {
            found: 1,
            kind: row.kind,
            x0: bbox.x0,
            y0: bbox.y0,
            x1: bbox.x1,
            y1: bbox.y1,
            a: row.a,
            b: row.b,
            c: row.c,
            log_odds: row.log_odds,
            first_value: first.value,
            first_threshold: first.threshold,
            first_llr: first.llr,
            second_value: second.value,
            second_threshold: second.threshold,
            second_llr: second.llr,
            length: row.length,
        }
    }
}

// The count stands beside the lists, since C lends them and they may be longer.
pub fn finding_at<'x>(
    rects: &'x [u32],
    kinds: &'x [u32],
    a: &'x [u32],
    b: &'x [u32],
    c: &'x [u32],
    log_odds: &'x [f64],
    first_values: &'x [f64],
    first_thresholds: &'x [f64],
    first_llrs: &'x [f64],
    second_values: &'x [f64],
    second_thresholds: &'x [f64],
    second_llrs: &'x [f64],
    lengths: &'x [f64],
    count: usize,
    i: usize,
) -> FindingAtAnswer
    ensures { result ≡ answer_of (finding_at (columns rects.now kinds.now a.now b.now c.now
        log_odds.now
        first_values.now first_thresholds.now first_llrs.now
        second_values.now second_thresholds.now second_llrs.now lengths.now) count i) }
{
    let lists = FindingLists {
        rects,
        kinds,
        a,
        b,
        c,
        log_odds,
        first_values,
        first_thresholds,
        first_llrs,
        second_values,
        second_thresholds,
        second_llrs,
        lengths,
    };
    let answer = read_findings::finding_at(&lists, count, i);
    match answer {
        Some(f) => FindingAtAnswer::from(Row::from(f)),
        None => FindingAtAnswer::default(),
    }
}
