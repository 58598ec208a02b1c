// The settings of stored calls: the 25 floats, then the five counts, each in the settings' order.
use crate::words::Reader;
use crate::{floats, words};
use params::settings::RulingsParams;

pub fn read(reader: &mut Reader<'_>) -> RulingsParams {
    let mut floats = [0.0; 25];
    let mut counts = [0; 5];
    reader.fill(&mut floats, floats::float_of);
    reader.fill(&mut counts, words::whole_of);
    settings_of(&floats, &counts)
}

fn settings_of(floats: &[f64; 25], counts: &[u32; 5]) -> RulingsParams {
    RulingsParams {
        merge_across_xh: floats[0],
        merge_gap_xh: floats[1],
        rule_min_contrast: floats[2],
        fold_min_length_in: floats[3],
        join_tol_xh: floats[4],
        table_min_horizontal: counts[0],
        table_min_vertical: counts[1],
        line_cluster_xh: floats[5],
        table_prior: floats[6],
        table_cells_coef: floats[7],
        table_cells_cap: floats[8],
        table_junction_coef: floats[9],
        min_free_rules: counts[2],
        free_rules_prior: floats[10],
        free_rules_coef: floats[11],
        free_rules_cap: floats[12],
        box_min_xh: floats[13],
        box_min_in: floats[14],
        box_max_xh: floats[15],
        box_overshoot_fraction: floats[16],
        box_aspect_tol: floats[17],
        box_tolerance_px: counts[3],
        box_edge_coverage: floats[18],
        box_max_inner_ink: floats[19],
        box_checked_ink: floats[20],
        grid_align_xh: floats[21],
        grid_min_boxes: counts[4],
        grid_prior: floats[22],
        grid_coef: floats[23],
        grid_cap: floats[24],
    }
}
