// Answers to `tables`. Every list is lent whole.
use crate::settings::Given;
use std::io;
use stored::written;

// Writes the number and the count of tables, and for each its set's number, rectangle, rows, columns,
// rulings and share, list by list.
fn write_tables(
    rt: &impl Print,
    number: u32,
    tables: usize,
    numbers: &[u32; 16],
    bounds: &[u32; 64],
    rows: &[u32; 16],
    columns: &[u32; 16],
    rulings: &[u32; 16],
    shares: &[f64; 16],
) -> io::Result<()> {
    let count = tables.min(16);
    written::word(rt, u64::from(number))?;
    written::count(rt, tables)?;
    written::wholes(rt, numbers, count)?;
    written::wholes(rt, bounds, 4 * count)?;
    written::wholes(rt, rows, count)?;
    written::wholes(rt, columns, count)?;
    written::wholes(rt, rulings, count)?;
    written::floats(rt, shares, count)
}

// Writes the free list and the sets: each count, then the list, and the n members.
fn write_sets(
    rt: &impl Print,
    sets: usize,
    free_count: usize,
    n: usize,
    free: &[u32; 16],
    ends: &[u32; 16],
    members: &[u32; 16],
) -> io::Result<()> {
    written::count(rt, free_count)?;
    written::wholes(rt, free, free_count)?;
    written::count(rt, sets)?;
    written::wholes(rt, ends, sets)?;
    written::wholes(rt, members, n)?;
    written::end(rt)
}

// Writes what the call answers: tables, free list, sets.
pub fn answer(rt: &impl Print, given: Given, rects: &[u32], directions: &[u32]) -> io::Result<()> {
    let mut members = [0u32; 16];
    let mut ends = [0u32; 16];
    let mut numbers = [0u32; 16];
    let mut bounds = [0u32; 64];
    let mut rows = [0u32; 16];
    let mut columns = [0u32; 16];
    let mut rulings = [0u32; 16];
    let mut shares = [0.0f64; 16];
    let mut free = [0u32; 16];
    let a = tables::tables(
        given.xheight,
        given.p,
        rects,
        directions,
        &mut members,
        &mut ends,
        &mut numbers,
        &mut bounds,
        &mut rows,
        &mut columns,
        &mut rulings,
        &mut shares,
        &mut free,
        &mut [0; 16],
        &mut [0; 16],
        &mut [0; 16],
        &mut [0; 16],
    );
    let n = if a.number == 0 { rects.len() / 4 } else { 0 };
    write_tables(
        rt, a.number, a.tables, &numbers, &bounds, &rows, &columns, &rulings, &shares,
    )?;
    write_sets(rt, a.sets, a.free, n, &free, &ends, &members)
}
