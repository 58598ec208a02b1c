// The lists that boxes are written to.

#[derive(Drop)]
pub struct Lists<'l> {
    pub rects: &'l mut [u32],
    pub marks: &'l mut [u32],
    pub coverages: &'l mut [f64],
}
