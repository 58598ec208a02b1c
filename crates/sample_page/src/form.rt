// The page, and what is given beside it.
use crate::{settings, shown};
use layout::sides::Sides;
use layout::tables::Shears;
use page::given::Page;
use params::settings::FusionParams;
use small_pages::found;
use std::io;

pub fn run(rt: &impl Print) -> io::Result<()> {
    let mut gray = [255u8; 360];
    draw(&mut gray);
    read(rt, &gray)
}

// Reads the page and shows what is found.
fn read(rt: &impl Print, gray: &[u8; 360]) -> io::Result<()> {
    let shear = [1, 1, 1, 1, 1, 1, 1, 1, 1, 1, 1, 1, 0, 0, 0, 0, 0, 0, 0, 0];
    let shear_x = [0i32; 19];
    let mut ink = [0u8; 380];
    let shears = Shears {
        sides: sides(),
        shear: &shear,
        shear_x: &shear_x,
    };
    // This page misses no question.
    let _ = level_gray::level_gray(&shears, gray, &mut ink);
    mark_ink(&mut ink);
    let pieces = [
        0, 1, 4, 1, 6, 1, 10, 1, 0, 5, 10, 5, 0, 9, 10, 9, 0, 1, 0, 9, 10, 1, 10, 9, 0, 16, 19, 16,
    ];
    let glyphs = [14, 0, 19, 5, 14, 8, 19, 13];
    let given = Page {
        sides: sides(),
        dpi: 10,
        xheight: 1.0,
        settings: settings::settings(),
        caps: FusionParams {
            llr_clip: 4.0,
            group_cap: 6.0,
        },
        gray,
        ink: &ink,
        shear: &shear,
        shear_x: &shear_x,
        pieces: &pieces,
        glyphs: &glyphs,
    };
    let found = found::detect(&given, 380);
    shown::show(rt, &found)
}

// The page, # for ink and - for the fold.
const PAGE: [&[u8; 20]; 18] = [
    b"#####.#####...######",
    b"#.........#...#....#",
    b"#.........#...#....#",
    b"#.........#...#....#",
    b"###########...#....#",
    b"#.........#...######",
    b"#.........#.........",
    b"#.........#.........",
    b"###########...######",
    b"..............##...#",
    b"..............#.#..#",
    b"..............#..#.#",
    b"..............#...##",
    b"..............######",
    b"....................",
    b"------------........",
    b"............--------",
    b"....................",
];

fn draw(gray: &mut [u8; 360]) {
    for (places, row) in gray.chunks_mut(20).zip(PAGE) {
        for (place, mark) in places.iter_mut().zip(row) {
            *place = grey_of(*mark);
        }
    }
}

fn grey_of(mark: u8) -> u8 {
    match mark {
        b'#' => 40,
        b'-' => 235,
        _ => 255,
    }
}

// Turns the levelled picture into its ink: what is darker than 128.
fn mark_ink(ink: &mut [u8]) {
    for place in ink.iter_mut() {
        *place = u8::from(*place < 128);
    }
}

fn sides() -> Sides {
    Sides {
        pw: 20,
        ph: 18,
        w: 20,
        h: 19,
    }
}
