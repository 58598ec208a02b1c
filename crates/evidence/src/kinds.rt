// The finding of each kind, from its facts.
ghost use Rattle.std.specs.Prelude.{◌≡◌, ◌*◌, ◌≤◌, ◌^◌};
ghost use Rattle.evidence.specs.Kinds.{count_evidence, with_two, inches_of, is_fold, table_finding, free_finding, grid_finding, fold_finding};

use crate::finding::{Evidence, Finding, Kind};
use crate::score;
use layout::rect::PageRect;
use params::settings::{FusionParams, RulingsParams};

// A count against its threshold: its coefficient times the count, or times the cap where that is less.
fn count_evidence(count: f64, threshold: f64, coef: f64, cap: f64, clip: f64) -> Evidence
    ensures { result ≡ count_evidence clip count threshold coef cap }
{
    score::evidence_of(count, threshold, coef * select::min(count, cap), clip)
}

// A finding with two evidences.
fn with_two(
    prior: f64,
    cap: f64,
    bbox: PageRect,
    first: Evidence,
    second: f64,
    kind: Kind,
) -> Finding
    ensures { result ≡ with_two prior cap bbox first second kind }
{
    let llr = first.llr;
    Finding {
        log_odds: score::log_odds(prior, &[llr, second], cap),
        bbox,
        first,
        kind,
    }
}

// Settings, caps and rectangle stand first in each of the four functions, as in the definitions: a struct of the three would be made for
// one call.
pub fn table_finding(
    p: RulingsParams,
    f: FusionParams,
    bbox: PageRect,
    rows: u32,
    columns: u32,
    rulings: u32,
    share: f64,
) -> Finding
    requires { rows * columns ≤ 2 ^ 53 }
    ensures { result ≡ table_finding p f bbox rows columns rulings share }
{
    // `as`, since no `From` makes a float of a u64.
    let cells = (u64::from(rows) * u64::from(columns)) as f64;
    let clip = f.llr_clip;
    let first = count_evidence(cells, 0.0, p.table_cells_coef, p.table_cells_cap, clip);
    let second = score::evidence_of(share, 0.5, p.table_junction_coef * (share - 0.5), clip);
    let llr = second.llr;
    let kind = Kind::Table {
        rows,
        columns,
        rulings,
        second,
    };
    with_two(p.table_prior, f.group_cap, bbox, first, llr, kind)
}

// The free rules: how many of each direction, the longest one's length, and the mean of their contrasts.
pub fn free_finding(
    p: RulingsParams,
    f: FusionParams,
    bbox: PageRect,
    count: u32,
    horizontal: u32,
    vertical: u32,
    longest: u32,
    mean: f64,
) -> Finding
    ensures { result ≡ free_finding p f bbox count horizontal vertical longest mean }
{
    let clip = f.llr_clip;
    let first = count_evidence(
        f64::from(count),
        0.0,
        p.free_rules_coef,
        p.free_rules_cap,
        clip,
    );
    let second = score::evidence_of(mean, p.rule_min_contrast, 0.0, clip);
    let llr = second.llr;
    let kind = Kind::FreeRules {
        horizontal,
        vertical,
        longest,
        second,
    };
    with_two(p.free_rules_prior, f.group_cap, bbox, first, llr, kind)
}

// A grid: its boxes, how many are ticked, and the mean of their edge coverages.
pub fn grid_finding(
    p: RulingsParams,
    f: FusionParams,
    bbox: PageRect,
    boxes: u32,
    ticked: u32,
    mean: f64,
) -> Finding
    ensures { result ≡ grid_finding p f bbox boxes ticked mean }
{
    let clip = f.llr_clip;
    let first = count_evidence(
        f64::from(boxes),
        f64::from(p.grid_min_boxes),
        p.grid_coef,
        p.grid_cap,
        clip,
    );
    let second = score::evidence_of(mean, p.box_edge_coverage, 0.0, clip);
    let llr = second.llr;
    let kind = Kind::Grid {
        boxes,
        ticked,
        second,
    };
    with_two(p.grid_prior, f.group_cap, bbox, first, llr, kind)
}

// A length in inches.
pub fn inches(length: u32, dpi: u16) -> f64
    ensures { result ≡ inches_of length dpi }
{
    f64::from(length) / f64::from(dpi)
}

// A faint ruling of so many inches is a fold unless it is too short.
pub fn is_fold(p: RulingsParams, inches: f64) -> bool
    ensures { result ≡ is_fold p inches }
{
    !(inches < p.fold_min_length_in)
}

// A fold: its direction, its length in inches, and its contrast. The direction is a `bool`, as in the Rust: it is what a test finds.
pub fn fold_finding(
    p: RulingsParams,
    f: FusionParams,
    bbox: PageRect,
    vertical: bool,
    inches: f64,
    contrast: f64,
) -> Finding
    ensures { result ≡ fold_finding p f bbox vertical inches contrast }
{
    let llr = (p.rule_min_contrast - contrast) / 10.0;
    let first = score::evidence_of(contrast, p.rule_min_contrast, llr, f.llr_clip);
    let clamped = first.llr;
    let length = rounding::round_output(inches);
    Finding {
        log_odds: score::log_odds(0.0, &[clamped], f.group_cap),
        bbox,
        first,
        kind: Kind::Fold { vertical, length },
    }
}
