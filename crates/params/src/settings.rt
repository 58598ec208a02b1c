// The settings by value, with the Rust's names in the Rust's order. A name that ends in `_xh` is
// in x-heights, one in `_in` in inches; the five counts are 32 bits wide.

#[repr(C)]
#[derive(Clone, Copy)]
pub struct RulingsParams {
    pub merge_across_xh: f64,
    pub merge_gap_xh: f64,
    pub rule_min_contrast: f64,
    pub fold_min_length_in: f64,
    pub join_tol_xh: f64,
    pub table_min_horizontal: u32,
    pub table_min_vertical: u32,
    pub line_cluster_xh: f64,
    pub table_prior: f64,
    pub table_cells_coef: f64,
    pub table_cells_cap: f64,
    pub table_junction_coef: f64,
    pub min_free_rules: u32,
    pub free_rules_prior: f64,
    pub free_rules_coef: f64,
    pub free_rules_cap: f64,
    pub box_min_xh: f64,
    pub box_min_in: f64,
    pub box_max_xh: f64,
    pub box_overshoot_fraction: f64,
    pub box_aspect_tol: f64,
    pub box_tolerance_px: u32,
    pub box_edge_coverage: f64,
    pub box_max_inner_ink: f64,
    pub box_checked_ink: f64,
    pub grid_align_xh: f64,
    pub grid_min_boxes: u32,
    pub grid_prior: f64,
    pub grid_coef: f64,
    pub grid_cap: f64,
}

// The two of the Rust's `FusionParams` that bound the log odds.
#[repr(C)]
#[derive(Clone, Copy)]
pub struct FusionParams {
    pub llr_clip: f64,
    pub group_cap: f64,
}
