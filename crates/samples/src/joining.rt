// Two slips about pieces that touch, at an x-height of 1, so that each setting is its limit.
use crate::{settings, show};
use params::settings::RulingsParams;
use std::io;

pub fn run(rt: &impl Print) -> io::Result<()> {
    centres_stay_doubled(rt)?;
    chains_are_followed(rt)
}

// The doubled centres, 10 and 15, differ by 5, and the limit is 4. Halved before they are compared, they
// would be 5 and 7 with a limit of 2, and the pieces one ruling.
fn centres_stay_doubled(rt: &impl Print) -> io::Result<()> {
    let pieces = [0, 5, 9, 5, 0, 7, 9, 8];
    let mut rects = [0; 16];
    let rulings = join_on_white(2.0, 0.0, &pieces, &mut rects);
    show(
        rt,
        "across limit 2: row 5 and rows 7..8 are two rulings",
        rulings == 2 && rects[3] == 5 && rects[7] == 8,
    )
}

// Along the row each piece touches the next, in the order 0, 3, 1, 2. One pass without chains would make
// two rulings, whether a piece joins the first ruling that it touches, or takes the pieces that it
// touches itself, or the smaller of two touching pieces' numbers goes over to the other.
fn chains_are_followed(rt: &impl Print) -> io::Result<()> {
    let pieces = [0, 4, 9, 4, 40, 4, 49, 4, 60, 4, 69, 4, 20, 4, 29, 4];
    let mut rects = [0; 16];
    let rulings = join_on_white(0.0, 10.0, &pieces, &mut rects);
    show(
        rt,
        "gap limit 10: four pieces in a chain are one ruling",
        rulings == 1 && rects[0] == 0 && rects[2] == 69,
    )
}

// The number of rulings on a white picture of 70 by 9; their rectangles go into `rects`.
fn join_on_white(across: f64, gap: f64, pieces: &[u32], rects: &mut [u32; 16]) -> usize {
    let mut contrasts = [0.0; 4];
    join(
        &[255; 630],
        70,
        9,
        across,
        gap,
        pieces,
        rects,
        &mut contrasts,
    )
}

// The number of rulings that up to four pieces make on a picture, 0 where they are refused: no `Option`, since it is only
// compared with the right number, which is above 0. Their rectangles and contrasts go into the lists.
pub fn join(
    raster: &[u8],
    w: usize,
    h: usize,
    across: f64,
    gap: f64,
    pieces: &[u32],
    rects: &mut [u32; 16],
    contrasts: &mut [f64; 4],
) -> usize {
    let p = RulingsParams {
        merge_across_xh: across,
        merge_gap_xh: gap,
        ..settings::settings()
    };
    let answer = segments::segments::segments(
        raster,
        w,
        h,
        1.0,
        pieces,
        p,
        rects,
        &mut [0; 4],
        contrasts,
        &mut [0; 4],
        &mut [0; 4],
        &mut [0; 4],
        &mut [0; 4],
        &mut [0; 4],
        &mut [0; 4],
        &mut [0; 4],
    );
    answer.count
}
