// Answers to `detect`: number and counts, the levelled raster, then list after list.
use crate::finding_rows;
use page::answer::Answer;
use page::given::Page;
use small_pages::found;
use small_pages::found::Found;
use std::io;
use stored::written;

// Writes what the call answers.
pub fn answer(rt: &impl Print, given: &Page, lent: u64) -> io::Result<()> {
    let room = lent.min(1024) as usize;
    let found = found::detect(given, room);
    let n = if found.answer.number == 0 {
        given.pieces.len() / 4
    } else {
        0
    };
    write_counts(rt, found.answer)?;
    written::wholes(rt, &found.levelled, room)?;
    write_rulings(rt, &found, n)?;
    write_printed(rt, &found)?;
    write_tables(rt, &found)?;
    write_boxes(rt, &found)?;
    finding_rows::write(rt, &found)?;
    written::end(rt)
}

// The number, then every count.
fn write_counts(rt: &impl Print, a: Answer) -> io::Result<()> {
    written::word(rt, u64::from(a.number))?;
    let counts = [
        a.rulings,
        a.printed,
        a.faint,
        a.tables,
        a.boxes,
        a.grids,
        a.findings,
        a.printed_sets,
        a.free,
        a.box_sets,
    ];
    for count in counts {
        written::count(rt, count)?;
    }
    Ok(())
}

// Rectangles, directions, contrasts and ends of the rulings, and the n members of the sets of pieces.
fn write_rulings(rt: &impl Print, found: &Found, n: usize) -> io::Result<()> {
    let count = found.answer.rulings.min(16);
    written::wholes(rt, &found.rects, 4 * count)?;
    written::wholes(rt, &found.directions, count)?;
    written::floats(rt, &found.contrasts, count)?;
    written::wholes(rt, &found.piece_ends, count)?;
    written::wholes(rt, &found.piece_members, n)
}

// The printed and the faint, then the ends and the members of the sets of printed rulings.
fn write_printed(rt: &impl Print, found: &Found) -> io::Result<()> {
    let a = found.answer;
    written::wholes(rt, &found.printed, a.printed)?;
    written::wholes(rt, &found.faint, a.faint)?;
    written::wholes(rt, &found.printed_ends, a.printed_sets)?;
    written::wholes(rt, &found.printed_members, a.printed)
}

// Set numbers, rectangles, rows, columns, rulings and shares of the tables, then the free list.
fn write_tables(rt: &impl Print, found: &Found) -> io::Result<()> {
    let count = found.answer.tables.min(16);
    written::wholes(rt, &found.table_numbers, count)?;
    written::wholes(rt, &found.bounds, 4 * count)?;
    written::wholes(rt, &found.rows, count)?;
    written::wholes(rt, &found.columns, count)?;
    written::wholes(rt, &found.rulings, count)?;
    written::floats(rt, &found.shares, count)?;
    written::wholes(rt, &found.free, found.answer.free)
}

// Rectangles, marks and edge coverages of the boxes; ends, members and reading order of their sets; the set numbers of
// the grids.
fn write_boxes(rt: &impl Print, found: &Found) -> io::Result<()> {
    let a = found.answer;
    let count = a.boxes.min(16);
    written::wholes(rt, &found.boxes, 4 * count)?;
    written::wholes(rt, &found.marks, count)?;
    written::floats(rt, &found.coverages, count)?;
    written::wholes(rt, &found.box_ends, a.box_sets)?;
    written::wholes(rt, &found.box_members, a.boxes)?;
    written::wholes(rt, &found.reading, a.boxes)?;
    written::wholes(rt, &found.grid_numbers, a.grids)
}
