// Answers to `segments`. Every list is lent whole.
use crate::settings::Given;
use std::io;
use stored::written;

// Writes the number and the count of rulings, then their rectangles, directions, contrasts and ends,
// and the n members. Counts stand beside the arrays, here and in `rulings`, which are of one size.
fn write_rulings(
    rt: &impl Print,
    number: u32,
    rulings: usize,
    n: usize,
    rects: &[u32; 64],
    directions: &[u32; 16],
    contrasts: &[f64; 16],
    ends: &[u32; 16],
    members: &[u32; 16],
) -> io::Result<()> {
    let count = rulings.min(16);
    written::word(rt, u64::from(number))?;
    written::count(rt, rulings)?;
    written::wholes(rt, rects, 4 * count)?;
    written::wholes(rt, directions, count)?;
    written::floats(rt, contrasts, count)?;
    written::wholes(rt, ends, count)?;
    written::wholes(rt, members, n)?;
    written::end(rt)
}

// Writes what the call answers.
pub fn answer(rt: &impl Print, given: Given, pieces: &[u32], raster: &[u8]) -> io::Result<()> {
    let mut rects = [0u32; 64];
    let mut directions = [0u32; 16];
    let mut contrasts = [0.0f64; 16];
    let mut members = [0u32; 16];
    let mut ends = [0u32; 16];
    let a = segments::segments::segments(
        raster,
        given.w,
        given.h,
        given.xheight,
        pieces,
        given.p,
        &mut rects,
        &mut directions,
        &mut contrasts,
        &mut members,
        &mut ends,
        &mut [0; 16],
        &mut [0; 16],
        &mut [0; 16],
        &mut [0; 16],
        &mut [0; 16],
    );
    let n = if a.number == 0 { pieces.len() / 4 } else { 0 };
    write_rulings(
        rt,
        a.number,
        a.count,
        n,
        &rects,
        &directions,
        &contrasts,
        &ends,
        &members,
    )
}
