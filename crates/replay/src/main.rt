// Answers the stored calls of `stdin` anew, and `stdout` has what the answers must be, so that the two can
// be compared where no Rust is at hand. tests/differential wrote both, and its README.md says how the
// lines read: a call a line, hex words, the first of them the number of the call.
//
// What the unchanged Rust answered: the lines of calls 1 to 4 whole; of the others, on an accepted page,
// the rulings of 5, the tables and the free list of 6, the boxes of 7, the raster, the place and the
// rectangle of 10 to 12, the raster that 14 is given, which is levelled from the page that it answers (the
// padding apart), and in every line of 9 the first word, whether `validate` accepts.
// What is the driver's own: the number of the first missed question, and what a refused page answers beside
// it; the closed sets, by a flood fill (the ends and members of 5, 6 and 8, the set numbers of 6 and 8),
// and the reading order of 8, by a plain sort. The sets that 8 names as grids are those that the Rust finds.
#![tactic(auto)]

use std::io;
use stored::input;
use stored::words::Reader;

mod floats;
mod glyphs;
mod levelled;
mod pages;
mod piece_sets;
mod rulings;
mod settings;
mod squares;

// `replay_pages` begins so too: of two programs each has a `main` of its own.
fn main(rt: HostRuntime) -> io::Result<()> {
    let mut text = [0u8; 262144];
    let n = input::read_full(&mut rt.stdin(), &mut text)?;
    replay(&rt, &text[..n])
}

// Answers call after call, up to the end or to a number that no call has. A call takes a byte at least, so there are
// no more calls than bytes.
fn replay(rt: &impl Print, text: &[u8]) -> io::Result<()> {
    let mut reader = Reader::new(text);
    for _ in 0..text.len() {
        if reader.is_at_end() {
            return Ok(());
        }
        match reader.word() {
            1 => print(rt, floats::pairwise_sum(&mut reader))?,
            2 => print(rt, floats::round_output(&mut reader))?,
            3 => print(rt, floats::rounded_product(&mut reader))?,
            4 => print(rt, floats::round(&mut reader))?,
            5 => pages::page(rt, &mut reader, pages::Call::Segments)?,
            6 => pages::page(rt, &mut reader, pages::Call::Tables)?,
            7 => pages::page(rt, &mut reader, pages::Call::Boxes)?,
            8 => pages::page(rt, &mut reader, pages::Call::BoxGrids)?,
            9 => pages::page(rt, &mut reader, pages::Call::Validate)?,
            10 => levelled::page(rt, &mut reader, levelled::Call::LevelGray)?,
            11 => levelled::page(rt, &mut reader, levelled::Call::ToPage)?,
            12 => levelled::page(rt, &mut reader, levelled::Call::RectToPage)?,
            14 => levelled::page(rt, &mut reader, levelled::Call::Unlevel)?,
            _ => return Ok(()),
        }
    }
    Ok(())
}

// Writes an answer on a line of its own.
fn print(rt: &impl Print, answer: u64) -> io::Result<()> {
    println!(rt; "{answer:016x}")
}
