// Answers to `box_grids`. Every list is lent whole.
use crate::settings::Given;
use std::io;
use stored::written;

// Writes the number; the set numbers of the grids and the ends of the sets, each behind its count; the
// members and the reading order.
pub fn answer(rt: &impl Print, given: Given, rects: &[u32]) -> io::Result<()> {
    let mut members = [0u32; 16];
    let mut ends = [0u32; 16];
    let mut reading = [0u32; 16];
    let mut numbers = [0u32; 16];
    let a = grids::box_grids(
        given.xheight,
        given.p,
        rects,
        &mut members,
        &mut ends,
        &mut reading,
        &mut numbers,
        &mut [0; 16],
        &mut [0; 16],
        &mut [0; 16],
    );
    let n = if a.number == 0 { rects.len() / 4 } else { 0 };
    written::word(rt, u64::from(a.number))?;
    written::count(rt, a.grids)?;
    written::wholes(rt, &numbers, a.grids)?;
    written::count(rt, a.sets)?;
    written::wholes(rt, &ends, a.sets)?;
    written::wholes(rt, &members, n)?;
    written::wholes(rt, &reading, n)?;
    written::end(rt)
}
