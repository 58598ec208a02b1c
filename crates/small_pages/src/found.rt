// What is found on a small page, by value.
use page::answer::Answer;
use page::given::Page;

// The answer, and every list that it speaks of, whole.
#[derive(Clone, Copy)]
pub struct Found {
    pub answer: Answer,
    pub levelled: [u8; 1024],
    pub rects: [u32; 64],
    pub boxes: [u32; 64],
    pub directions: [u32; 16],
    pub marks: [u32; 16],
    pub contrasts: [f64; 16],
    pub shares: [f64; 16],
    pub coverages: [f64; 16],
    pub printed: [u32; 16],
    pub reading: [u32; 16],
    pub free: [u32; 16],
    pub faint: [u32; 16],
    pub piece_members: [u32; 16],
    pub printed_members: [u32; 16],
    pub box_members: [u32; 16],
    pub piece_ends: [u32; 16],
    pub printed_ends: [u32; 16],
    pub box_ends: [u32; 16],
    pub table_numbers: [u32; 16],
    pub grid_numbers: [u32; 16],
    pub bounds: [u32; 64],
    pub rows: [u32; 16],
    pub columns: [u32; 16],
    pub rulings: [u32; 16],
    pub page: [u32; 128],
    pub kinds: [u32; 32],
    pub a: [u32; 32],
    pub b: [u32; 32],
    pub c: [u32; 32],
    pub log_odds: [f64; 32],
    pub first_values: [f64; 32],
    pub first_thresholds: [f64; 32],
    pub first_llrs: [f64; 32],
    pub second_values: [f64; 32],
    pub second_thresholds: [f64; 32],
    pub second_llrs: [f64; 32],
    pub lengths: [f64; 32],
}

// Reads a page of up to 16 pieces, 16 glyph boxes and 1,024 places, with `room` bytes lent for the levelled
// raster, each of them 7 before the call. A larger page is refused by 14.
pub fn detect(given: &Page, room: usize) -> Found {
    let mut levelled = [7u8; 1024];
    let mut rects = [0u32; 64];
    let mut boxes = [0u32; 64];
    let mut directions = [0u32; 16];
    let mut marks = [0u32; 16];
    let mut contrasts = [0.0f64; 16];
    let mut shares = [0.0f64; 16];
    let mut coverages = [0.0f64; 16];
    let mut printed = [0u32; 16];
    let mut reading = [0u32; 16];
    let mut free = [0u32; 16];
    let mut faint = [0u32; 16];
    let mut piece_members = [0u32; 16];
    let mut printed_members = [0u32; 16];
    let mut box_members = [0u32; 16];
    let mut piece_ends = [0u32; 16];
    let mut printed_ends = [0u32; 16];
    let mut box_ends = [0u32; 16];
    let mut table_numbers = [0u32; 16];
    let mut grid_numbers = [0u32; 16];
    let mut bounds = [0u32; 64];
    let mut rows = [0u32; 16];
    let mut columns = [0u32; 16];
    let mut rulings = [0u32; 16];
    let mut page = [0u32; 128];
    let mut kinds = [0u32; 32];
    let mut a = [0u32; 32];
    let mut b = [0u32; 32];
    let mut c = [0u32; 32];
    let mut log_odds = [0.0f64; 32];
    let mut first_values = [0.0f64; 32];
    let mut first_thresholds = [0.0f64; 32];
    let mut first_llrs = [0.0f64; 32];
    let mut second_values = [0.0f64; 32];
    let mut second_thresholds = [0.0f64; 32];
    let mut second_llrs = [0.0f64; 32];
    let mut lengths = [0.0f64; 32];
    let mut piece_parents = [0u32; 16];
    let mut box_parents = [0u32; 16];
    let mut piece_order = [0u32; 16];
    let mut box_order = [0u32; 16];
    let mut listed = [0u32; 16];
    let mut listed_ends = [0u32; 16];
    let mut piece_keys = [0u64; 16];
    let mut box_keys = [0u64; 16];
    let n = room.min(1024);
    let answer = detect::lists_apart::detect(
        given,
        &mut levelled[..n],
        &mut rects,
        &mut directions,
        &mut contrasts,
        &mut printed,
        &mut faint,
        &mut piece_members,
        &mut piece_ends,
        &mut bounds,
        &mut rows,
        &mut columns,
        &mut rulings,
        &mut shares,
        &mut free,
        &mut printed_members,
        &mut printed_ends,
        &mut table_numbers,
        &mut piece_parents,
        &mut listed,
        &mut listed_ends,
        &mut piece_order,
        &mut piece_keys,
        &mut boxes,
        &mut marks,
        &mut coverages,
        &mut reading,
        &mut box_members,
        &mut box_ends,
        &mut grid_numbers,
        &mut box_parents,
        &mut box_order,
        &mut box_keys,
        &mut page,
        &mut kinds,
        &mut a,
        &mut b,
        &mut c,
        &mut log_odds,
        &mut first_values,
        &mut first_thresholds,
        &mut first_llrs,
        &mut second_values,
        &mut second_thresholds,
        &mut second_llrs,
        &mut lengths,
    );
    Found {
        answer,
        levelled,
        rects,
        boxes,
        directions,
        marks,
        contrasts,
        shares,
        coverages,
        printed,
        reading,
        free,
        faint,
        piece_members,
        printed_members,
        box_members,
        piece_ends,
        printed_ends,
        box_ends,
        table_numbers,
        grid_numbers,
        bounds,
        rows,
        columns,
        rulings,
        page,
        kinds,
        a,
        b,
        c,
        log_odds,
        first_values,
        first_thresholds,
        first_llrs,
        second_values,
        second_thresholds,
        second_llrs,
        lengths,
    }
}
