// Evidence and log odds.
ghost use Rattle.std.specs.Prelude.{◌≡◌};
ghost use Rattle.evidence.specs.Score.{evidence_of, log_odds};

use crate::finding::Evidence;

// A value held against its threshold, with its llr clamped to ±clip.
pub fn evidence_of(value: f64, threshold: f64, llr: f64, clip: f64) -> Evidence
    ensures { result ≡ evidence_of clip value threshold llr }
{
    Evidence {
        value,
        threshold,
        llr: select::clamp(llr, clip),
    }
}

// prior + (0.0 + the sum of the llrs clamped to ±cap), the argument of `sigmoid`.
pub fn log_odds(prior: f64, llrs: &[f64], cap: f64) -> f64
    ensures { result ≡ log_odds prior cap llrs.now }
{
    let sum = sums::sum::pairwise_sum(llrs);
    prior + (0.0 + select::clamp(sum, cap))
}
