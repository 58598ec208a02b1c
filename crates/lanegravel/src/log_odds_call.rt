// Log odds of given llrs (crate `evidence`).
ghost use Rattle.std.specs.Prelude.{◌≡◌};
ghost use Rattle.evidence.specs.Score.{log_odds};

#[unsafe(no_mangle)]
pub extern "C" fn lanegravel_log_odds(prior: f64, llrs: &[f64], group_cap: f64) -> f64
    ensures { result ≡ log_odds prior group_cap llrs.now }
{
    evidence::score::log_odds(prior, llrs, group_cap)
}
