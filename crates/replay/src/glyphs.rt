// Answers to `boxes`. Every list is lent whole.
use crate::settings::Given;
use std::io;
use stored::written;

// Writes the number and the count of boxes, then their rectangles, marks and edge coverages.
pub fn answer(rt: &impl Print, given: Given, glyphs: &[u32], ink: &[u8]) -> io::Result<()> {
    let mut rects = [0u32; 64];
    let mut marks = [0u32; 16];
    let mut coverages = [0.0f64; 16];
    let a = boxes::boxes(
        given.w,
        given.h,
        given.dpi,
        given.xheight,
        ink,
        glyphs,
        given.p,
        &mut rects,
        &mut marks,
        &mut coverages,
    );
    let count = a.count.min(16);
    written::word(rt, u64::from(a.number))?;
    written::count(rt, a.count)?;
    written::wholes(rt, &rects, 4 * count)?;
    written::wholes(rt, &marks, count)?;
    written::floats(rt, &coverages, count)?;
    written::end(rt)
}
