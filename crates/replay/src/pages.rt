// The stored calls that have settings: what is given by value, then rectangles, directions and bytes
// (the raster or the ink), each a list, empty where the call has none. No page has more than 16
// rectangles and 256 pixels.
use crate::settings::Given;
use crate::{glyphs, piece_sets, rulings, settings, squares};
use std::io;
use stored::words;
use stored::words::Reader;

#[derive(Clone, Copy)]
pub enum Call {
    Segments,
    Tables,
    Boxes,
    BoxGrids,
    Validate,
}

// Reads what the call is given, and answers it.
pub fn page(rt: &impl Print, reader: &mut Reader<'_>, call: Call) -> io::Result<()> {
    let given = settings::read(reader);
    let mut rects = [0u32; 64];
    let mut directions = [0u32; 20];
    let mut bytes = [0u8; 256];
    let numbers = reader.list(&mut rects, words::whole_of);
    let rulings = reader.list(&mut directions, words::whole_of);
    let pixels = reader.list(&mut bytes, words::byte_of);
    answer(
        rt,
        call,
        given,
        &rects[..numbers],
        &directions[..rulings],
        &bytes[..pixels],
    )
}

fn answer(
    rt: &impl Print,
    call: Call,
    given: Given,
    rects: &[u32],
    directions: &[u32],
    bytes: &[u8],
) -> io::Result<()> {
    match call {
        Call::Segments => piece_sets::answer(rt, given, rects, bytes),
        Call::Tables => rulings::answer(rt, given, rects, directions),
        Call::Boxes => glyphs::answer(rt, given, rects, bytes),
        Call::BoxGrids => squares::answer(rt, given, rects),
        Call::Validate => settings::answer(rt, given),
    }
}
