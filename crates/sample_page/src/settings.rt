// The settings of the form.
use params::settings::RulingsParams;

pub fn settings() -> RulingsParams {
    RulingsParams {
        merge_across_xh: 0.0,
        merge_gap_xh: 1.0,
        rule_min_contrast: 50.0,
        fold_min_length_in: 1.0,
        join_tol_xh: 0.0,
        table_min_horizontal: 2,
        table_min_vertical: 2,
        line_cluster_xh: 0.0,
        table_prior: 1.0,
        table_cells_coef: 0.5,
        table_cells_cap: 10.0,
        table_junction_coef: 2.0,
        min_free_rules: 1,
        free_rules_prior: 0.0,
        free_rules_coef: 0.0,
        free_rules_cap: 0.0,
        box_min_xh: 4.0,
        box_min_in: 0.0,
        box_max_xh: 8.0,
        box_overshoot_fraction: 0.25,
        box_aspect_tol: 0.25,
        box_tolerance_px: 0,
        box_edge_coverage: 0.5,
        box_max_inner_ink: 0.5,
        box_checked_ink: 0.2,
        grid_align_xh: 0.0,
        grid_min_boxes: 2,
        grid_prior: 0.5,
        grid_coef: 0.5,
        grid_cap: 4.0,
    }
}
