// The lists that `detect` is lent, one a field; those of the findings are `finding_lists`'. The structs have no model: a function that is lent one
// tells that each field is still the list that it was.

// Of the rulings, with the sets of pieces, and of the tables, with the sets of printed rulings; then the work lists, one entry a piece.
#[derive(Drop)]
pub struct LentRules<'l> {
    pub levelled: &'l mut [u8],
    pub rects: &'l mut [u32],
    pub directions: &'l mut [u32],
    pub contrasts: &'l mut [f64],
    pub printed: &'l mut [u32],
    pub faint: &'l mut [u32],
    pub piece_members: &'l mut [u32],
    pub piece_ends: &'l mut [u32],
    pub bounds: &'l mut [u32],
    pub rows: &'l mut [u32],
    pub columns: &'l mut [u32],
    pub rulings: &'l mut [u32],
    pub shares: &'l mut [f64],
    pub free: &'l mut [u32],
    pub printed_members: &'l mut [u32],
    pub printed_ends: &'l mut [u32],
    pub numbers: &'l mut [u32],
    pub parents: &'l mut [u32],
    pub listed: &'l mut [u32],
    pub listed_ends: &'l mut [u32],
    pub order: &'l mut [u32],
    pub keys: &'l mut [u64],
}

// Of the boxes, with their sets and reading orders, and of the grids; then the work lists, one entry a glyph box.
#[derive(Drop)]
pub struct LentMarks<'l> {
    pub boxes: &'l mut [u32],
    pub marks: &'l mut [u32],
    pub coverages: &'l mut [f64],
    pub reading: &'l mut [u32],
    pub members: &'l mut [u32],
    pub ends: &'l mut [u32],
    pub numbers: &'l mut [u32],
    pub parents: &'l mut [u32],
    pub order: &'l mut [u32],
    pub keys: &'l mut [u64],
}
