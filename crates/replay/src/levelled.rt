// The stored calls about levelling: the page's sides and the levelled picture's, then the shear tables, the
// raster that is given and up to four numbers, each a list. No table has more than 64 entries, and no raster
// more than 256 bytes.
use layout::calls;
use layout::page::Levelled;
use layout::tables::Shears;
use questions::Missed;
use rects::Rect;
use std::io;
use stored::words::Reader;
use stored::{words, written};

#[derive(Clone, Copy)]
pub enum Call {
    LevelGray,
    ToPage,
    RectToPage,
    Unlevel,
}

// Reads what the call is given, and answers it.
pub fn page(rt: &impl Print, reader: &mut Reader<'_>, call: Call) -> io::Result<()> {
    let sides = stored::sides::read(reader);
    let mut shear = [0i32; 64];
    let mut shear_x = [0i32; 64];
    let mut raster = [0u8; 256];
    let mut numbers = [0u32; 4];
    let columns = reader.list(&mut shear, words::signed_of);
    let rows = reader.list(&mut shear_x, words::signed_of);
    let pixels = reader.list(&mut raster, words::byte_of);
    reader.list(&mut numbers, words::whole_of);
    let shears = Shears {
        sides,
        shear: &shear[..columns],
        shear_x: &shear_x[..rows],
    };
    answer(rt, call, &shears, &raster[..pixels], &numbers)
}

// The numbers are the room for a raster, a place, or a rectangle.
fn answer(
    rt: &impl Print,
    call: Call,
    shears: &Shears,
    raster: &[u8],
    numbers: &[u32; 4],
) -> io::Result<()> {
    match call {
        Call::LevelGray => write_raster(rt, numbers[0], |out| {
            level_gray::level_gray(shears, raster, out)
        })?,
        Call::Unlevel => write_raster(rt, numbers[0], |out| {
            unlevel::unlevel(shears, raster, out)
        })?,
        Call::ToPage => to_page(rt, shears, Levelled(numbers[0], numbers[1]))?,
        Call::RectToPage => {
            let r = Rect {
                x0: numbers[0],
                y0: numbers[1],
                x1: numbers[2],
                y1: numbers[3],
            };
            rect_to_page(rt, shears, r)?
        }
    }
    written::end(rt)
}

// Writes the number of the question that `level` misses, or 0, and every byte of the raster of `room` bytes, which is lent to it with 7 in it.
fn write_raster<F: FnOnce(&mut [u8]) -> Result<(), Missed>>(
    rt: &impl Print,
    room: u32,
    level: F,
) -> io::Result<()>
    requires { F.IsAlwaysCallable level }
{
    let mut out = [7u8; 256];
    let n = (room as usize).min(256);
    let number = questions::number(level(&mut out[..n]));
    written::word(rt, u64::from(number))?;
    written::wholes(rt, &out, n)
}

// Writes the number, and the place or 0 and 0.
fn to_page(rt: &impl Print, shears: &Shears, p: Levelled) -> io::Result<()> {
    let mapped = calls::to_page(shears, p);
    match mapped {
        Ok(place) => write_place(rt, 0, place.0, place.1),
        Err(question) => write_place(rt, question.number(), 0, 0),
    }
}

fn write_place(rt: &impl Print, number: u32, x: i64, y: i64) -> io::Result<()> {
    written::word(rt, u64::from(number))?;
    written::word(rt, x.cast_unsigned())?;
    written::word(rt, y.cast_unsigned())
}

// Writes the number, and the rectangle or four times 0.
fn rect_to_page(rt: &impl Print, shears: &Shears, r: Rect) -> io::Result<()> {
    let mapped = calls::rect_to_page(shears, r);
    match mapped {
        Ok(a) => write_area(rt, 0, &[a.x0, a.y0, a.x1, a.y1]),
        Err(question) => write_area(rt, question.number(), &[0, 0, 0, 0]),
    }
}

fn write_area(rt: &impl Print, number: u32, area: &[u32]) -> io::Result<()> {
    written::word(rt, u64::from(number))?;
    written::wholes(rt, area, 4)
}
