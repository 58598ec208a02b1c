// Answers the stored pages of `stdin` anew, and `stdout` has what the answers must be, so that the two can be compared
// where no Rust is at hand. tests/differential wrote both, and its README.md says how the lines read: a page a line,
// hex words, the first of them d for `detect`.
//
// What the unchanged Rust answered: of an accepted page the counts of rulings, printed, faint, tables, boxes, grids
// and findings, the levelled raster, the rulings, the tables, the free list, the boxes and every word of the findings.
// What is the driver's own: the number of the first missed question, and what a refused page answers beside it; the
// closed sets, by a flood fill (ends, members and set numbers), and the reading order, by a plain sort.
#![tactic(auto)]

use std::io;
use stored::input;
use stored::words::Reader;

mod answers;
mod finding_rows;
mod pages;

// As in `replay`: of two programs each has a `main` of its own.
fn main(rt: HostRuntime) -> io::Result<()> {
    let mut text = [0u8; 262144];
    let n = input::read_full(&mut rt.stdin(), &mut text)?;
    replay(&rt, &text[..n])
}

// Answers page after page, up to the end or to a number that is not `detect`'s. A page takes a byte at least, so there
// are no more pages than bytes.
fn replay(rt: &impl Print, text: &[u8]) -> io::Result<()> {
    let mut reader = Reader::new(text);
    for _ in 0..text.len() {
        if reader.is_at_end() || reader.word() != 13 {
            return Ok(());
        }
        pages::page(rt, &mut reader)?;
    }
    Ok(())
}
