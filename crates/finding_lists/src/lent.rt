// The lists that findings are stored in, one a field.

// Rectangles of the page, four numbers each; kinds and three whole facts; log odds, two evidences, a fold's length. No model: a function that
// is lent the struct tells that each field is still the list that it was.
#[derive(Drop)]
pub struct LentFindings<'l> {
    pub rects: &'l mut [u32],
    pub kinds: &'l mut [u32],
    pub a: &'l mut [u32],
    pub b: &'l mut [u32],
    pub c: &'l mut [u32],
    pub log_odds: &'l mut [f64],
    pub first_values: &'l mut [f64],
    pub first_thresholds: &'l mut [f64],
    pub first_llrs: &'l mut [f64],
    pub second_values: &'l mut [f64],
    pub second_thresholds: &'l mut [f64],
    pub second_llrs: &'l mut [f64],
    pub lengths: &'l mut [f64],
}
