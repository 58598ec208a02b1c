// Questions 7 to 13: the settings.
ghost use Rattle.std.specs.Prelude.{◌≡◌};
ghost use Rattle.questions.specs.Questions.{first_missed};
ghost use Rattle.questions.specs.Missed.{number_in};
ghost use Rattle.params.specs.Settings.{all_of, bounded, floats_bounded, lengths_not_negative};
ghost use Rattle.params.specs.Settings.{shares_in_range, minima_in_range, from_zero_to_million, caps_in_range};
ghost use Rattle.params.specs.Settings.{validate_questions, settings_questions, fusion_questions, free_rules_questions};

use crate::settings::{FusionParams, RulingsParams};
use questions::{Missed, ask};

// Finite, size at most 1,000,000.
fn bounded(x: f64) -> bool
    ensures { result ≡ bounded x }
{
    select::finite(x) & (select::abs(x) <= 1000000.0)
}

fn all_bounded(values: &[f64]) -> bool
    ensures { result ≡ all_of bounded values.now }
{
    values.iter().all(|x| bounded(*x))
}

// Question 7.
#[tactic(auto, unfolding(crate::specs::Settings::floats_bounded))]
fn floats_bounded(p: RulingsParams) -> bool
    ensures { result ≡ floats_bounded p }
{
    all_bounded(&[
        p.merge_across_xh,
        p.merge_gap_xh,
        p.rule_min_contrast,
        p.fold_min_length_in,
        p.join_tol_xh,
        p.line_cluster_xh,
        p.table_prior,
        p.table_cells_coef,
        p.table_cells_cap,
        p.table_junction_coef,
        p.free_rules_prior,
        p.free_rules_coef,
        p.free_rules_cap,
        p.box_min_xh,
        p.box_min_in,
        p.box_max_xh,
        p.box_overshoot_fraction,
        p.box_aspect_tol,
        p.box_edge_coverage,
        p.box_max_inner_ink,
        p.box_checked_ink,
        p.grid_align_xh,
        p.grid_prior,
        p.grid_coef,
        p.grid_cap,
    ])
}

// Question 8.
fn lengths_not_negative(p: RulingsParams) -> bool
    ensures { result ≡ lengths_not_negative p }
{
    !(p.merge_across_xh < 0.0)
        & !(p.merge_gap_xh < 0.0)
        & !(p.join_tol_xh < 0.0)
        & !(p.line_cluster_xh < 0.0)
        & !(p.box_min_xh < 0.0)
        & !(p.box_min_in < 0.0)
        & !(p.grid_align_xh < 0.0)
        & !(p.fold_min_length_in < 0.0)
}

// Question 10.
fn shares_in_range(p: RulingsParams) -> bool
    ensures { result ≡ shares_in_range p }
{
    (0.0 <= p.box_edge_coverage)
        & (p.box_edge_coverage <= 1.0)
        & (0.0 <= p.box_max_inner_ink)
        & (p.box_max_inner_ink <= 1.0)
        & (0.0 <= p.box_checked_ink)
        & (p.box_checked_ink <= 1.0)
        & (0.0 <= p.box_aspect_tol)
        & (p.box_aspect_tol <= 1.0)
        & (0.0 <= p.box_overshoot_fraction)
        & (p.box_overshoot_fraction <= 1.0)
        & (p.box_tolerance_px <= 3)
}

// Question 11.
#[tactic(auto, unfolding(crate::specs::Settings::minima_in_range))]
fn minima_in_range(p: RulingsParams) -> bool
    ensures { result ≡ minima_in_range p }
{
    (1 <= p.table_min_horizontal) & (1 <= p.table_min_vertical) & (2 <= p.grid_min_boxes)
}

// The Rust's `RulingsParams::validate`: questions 7 to 11.
#[tactic(auto, unfolding(crate::specs::Settings::box_sizes_ordered))]
pub fn validate(p: RulingsParams) -> Result<(), Missed>
    ensures { number_in result ≡ first_missed (validate_questions p) }
{
    ask(floats_bounded(p), Missed::Finite)?;
    ask(lengths_not_negative(p), Missed::NotNegative)?;
    ask(p.box_min_xh <= p.box_max_xh, Missed::BoxSizes)?;
    ask(shares_in_range(p), Missed::Fractions)?;
    ask(minima_in_range(p), Missed::Minimums)
}

// Finite, 0 to 1,000,000.
fn from_zero_to_million(x: f64) -> bool
    ensures { result ≡ from_zero_to_million x }
{
    select::finite(x) & (0.0 <= x) & (x <= 1000000.0)
}

// Question 12.
fn caps_in_range(f: FusionParams) -> bool
    ensures { result ≡ caps_in_range f }
{
    from_zero_to_million(f.llr_clip) & from_zero_to_million(f.group_cap)
}

// Question 12, where `llr_clip` and `group_cap` are given.
pub fn missed_by_fusion(f: FusionParams) -> Result<(), Missed>
    ensures { number_in result ≡ first_missed (fusion_questions f) }
{
    ask(caps_in_range(f), Missed::Caps)
}

// Question 13.
#[tactic(auto, unfolding(crate::specs::Settings::free_rules_counted))]
pub fn missed_by_free_rules(p: RulingsParams) -> Result<(), Missed>
    ensures { number_in result ≡ first_missed (free_rules_questions p) }
{
    ask(1 <= p.min_free_rules, Missed::FreeRules)
}

// Questions 7 to 11 and 13: what a call asks that is given the settings alone.
pub fn missed_by_settings(p: RulingsParams) -> Result<(), Missed>
    ensures { number_in result ≡ first_missed (settings_questions p) }
{
    validate(p)?;
    missed_by_free_rules(p)
}
