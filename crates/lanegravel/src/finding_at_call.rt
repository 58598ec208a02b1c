// A finding read back from its lists (crate `read_findings`).
ghost use Rattle.std.specs.Prelude.{◌≡◌};
ghost use Rattle.read_findings.specs.Read.{columns, finding_at};
ghost use Rattle.answers.specs.FindingAt.{answer_of};

use answers::finding_at::FindingAtAnswer;

#[unsafe(no_mangle)]
pub extern "C" fn lanegravel_finding_at(
    rects: &[u32],
    kinds: &[u32],
    a: &[u32],
    b: &[u32],
    c: &[u32],
    log_odds: &[f64],
    first_values: &[f64],
    first_thresholds: &[f64],
    first_llrs: &[f64],
    second_values: &[f64],
    second_thresholds: &[f64],
    second_llrs: &[f64],
    lengths: &[f64],
    count: usize,
    i: usize,
) -> FindingAtAnswer
    ensures { result ≡ answer_of (finding_at (columns rects.now kinds.now a.now b.now c.now
        log_odds.now
        first_values.now first_thresholds.now first_llrs.now
        second_values.now second_thresholds.now second_llrs.now lengths.now) count i) }
{
    answers::finding_at::finding_at(
        rects,
        kinds,
        a,
        b,
        c,
        log_odds,
        first_values,
        first_thresholds,
        first_llrs,
        second_values,
        second_thresholds,
        second_llrs,
        lengths,
        count,
        i,
    )
}
