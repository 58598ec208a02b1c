// A stored page: what is given by value, then the shear tables, the grey raster, the ink, the pieces and the glyph
// boxes, each a list, then how many bytes of the levelled raster are lent. No page has more than 64 entries in a
// table, 16 pieces, 16 glyph boxes and 150 pixels; a spoilt list may have a few more.
use crate::answers;
use page::given::Page;
use params::settings::FusionParams;
use std::io;
use stored::words::Reader;
use stored::{floats, settings, sides, words};

// Reads a page and answers it.
pub fn page(rt: &impl Print, reader: &mut Reader<'_>) -> io::Result<()> {
    let sides = sides::read(reader);
    let dpi = words::short_of(reader.word());
    let xheight = floats::float_of(reader.word());
    let settings = settings::read(reader);
    let caps = FusionParams {
        llr_clip: floats::float_of(reader.word()),
        group_cap: floats::float_of(reader.word()),
    };
    let mut shear = [0i32; 72];
    let mut shear_x = [0i32; 72];
    let mut gray = [0u8; 160];
    let mut ink = [0u8; 160];
    let mut pieces = [0u32; 72];
    let mut glyphs = [0u32; 72];
    let columns = reader.list(&mut shear, words::signed_of);
    let rows = reader.list(&mut shear_x, words::signed_of);
    let grey_places = reader.list(&mut gray, words::byte_of);
    let ink_places = reader.list(&mut ink, words::byte_of);
    let n = reader.list(&mut pieces, words::whole_of);
    let m = reader.list(&mut glyphs, words::whole_of);
    let given = Page {
        sides,
        dpi,
        xheight,
        settings,
        caps,
        gray: &gray[..grey_places],
        ink: &ink[..ink_places],
        shear: &shear[..columns],
        shear_x: &shear_x[..rows],
        pieces: &pieces[..n],
        glyphs: &glyphs[..m],
    };
    answers::answer(rt, &given, reader.word())
}
