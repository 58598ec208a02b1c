// The lists that C lends to `lanegravel_detect`, so many one behind the other in memory: one field a list.

// `Bytes`, `Words` and `Keys` differ in a type alone; one struct for the three is refused: "a struct with type or const arguments, or an
// associated type that is not known, is not supported yet in the signature of an exported function".

// One list of bytes.
#[repr(C)]
pub struct Bytes<'l> {
    pub list: &'l mut [u8],
}

// One list.
#[repr(C)]
pub struct Words<'l> {
    pub list: &'l mut [u32],
}

// One list of keys.
#[repr(C)]
pub struct Keys<'l> {
    pub list: &'l mut [u64],
}

// Rectangles: of the rulings, and of the boxes.
#[repr(C)]
pub struct Rects<'l> {
    pub rulings: &'l mut [u32],
    pub boxes: &'l mut [u32],
}

// Directions of the rulings, and marks of the boxes.
#[repr(C)]
pub struct Tags<'l> {
    pub directions: &'l mut [u32],
    pub marks: &'l mut [u32],
}

// Contrasts of the rulings, shares of the tables, coverages of the boxes.
#[repr(C)]
pub struct Values<'l> {
    pub contrasts: &'l mut [f64],
    pub shares: &'l mut [f64],
    pub coverages: &'l mut [f64],
}

// The printed rulings, and the reading orders of the boxes.
#[repr(C)]
pub struct Chosen<'l> {
    pub printed: &'l mut [u32],
    pub reading: &'l mut [u32],
}

// The free rulings, and the faint ones.
#[repr(C)]
pub struct Rest<'l> {
    pub free: &'l mut [u32],
    pub faint: &'l mut [u32],
}

// Of the sets of pieces, of printed rulings and of boxes: their members, or where each ends.
#[repr(C)]
pub struct Sets<'l> {
    pub pieces: &'l mut [u32],
    pub printed: &'l mut [u32],
    pub boxes: &'l mut [u32],
}

// The numbers of the sets that are tables, and of those that are grids.
#[repr(C)]
pub struct Numbers<'l> {
    pub tables: &'l mut [u32],
    pub grids: &'l mut [u32],
}

// A work list for the pieces, and one for the glyph boxes.
#[repr(C)]
pub struct Work<'l> {
    pub pieces: &'l mut [u32],
    pub boxes: &'l mut [u32],
}

// Kinds of the findings, and three facts of each.
#[repr(C)]
pub struct Facts<'l> {
    pub kinds: &'l mut [u32],
    pub a: &'l mut [u32],
    pub b: &'l mut [u32],
    pub c: &'l mut [u32],
}

// Log odds of the findings, two evidences, and a fold's length.
#[repr(C)]
pub struct Scores<'l> {
    pub log_odds: &'l mut [f64],
    pub first_values: &'l mut [f64],
    pub first_thresholds: &'l mut [f64],
    pub first_llrs: &'l mut [f64],
    pub second_values: &'l mut [f64],
    pub second_thresholds: &'l mut [f64],
    pub second_llrs: &'l mut [f64],
    pub lengths: &'l mut [f64],
}
