// Three slips about tables and the free list, at an x-height of 1, so that each setting is its limit.
use crate::{settings, show};
use params::settings::RulingsParams;
use std::io;

pub fn run(rt: &impl Print) -> io::Result<()> {
    centres_stay_doubled(rt)?;
    lines_go_on(rt)?;
    free_list_by_sets(rt)
}

// Columns 10..11 have the doubled centre 21, which lies past 20, twice the end of the row. Halved, it
// would be 10, and the two rulings one set.
fn centres_stay_doubled(rt: &impl Print) -> io::Result<()> {
    let rects = [0, 5, 10, 5, 10, 0, 11, 9];
    let found = find(0.0, &rects, &[0, 1], &mut [0; 5]);
    show(
        rt,
        "a row up to 10 and columns 10..11 do not touch",
        found.number == 0 && found.sets == 2,
    )
}

// All five rulings are one set, whose horizontals make one line. Measured from the line's first position,
// 6 would begin a second one, and the set would be a table.
fn lines_go_on(rt: &impl Print) -> io::Result<()> {
    let rects = [0, 0, 9, 0, 0, 3, 9, 3, 0, 6, 9, 6, 0, 0, 0, 9, 9, 0, 9, 9];
    let found = find(3.0, &rects, &[0, 0, 0, 1, 1], &mut [0; 5]);
    show(
        rt,
        "line limit 3: horizontals 0, 3, 6 are one line, and no table",
        found.sets == 1 && found.tables == 0 && found.free == 5,
    )
}

// Sorted, it would be 0, 1, 2, 3.
fn free_list_by_sets(rt: &impl Print) -> io::Result<()> {
    let rects = [0, 0, 10, 0, 0, 50, 10, 50, 0, 70, 10, 70, 5, 0, 5, 10];
    let mut free = [9; 5];
    let found = find(0.0, &rects, &[0, 0, 0, 1], &mut free);
    show(
        rt,
        "rulings 0 and 3 touch, 1 and 2 stand alone: free list 0, 3, 1, 2",
        found.free == 4 && free[..4] == [0, 3, 1, 2],
    )
}

// What `tables` answers for up to five rulings with a line limit and no tolerance; the free list goes
// into `free`.
fn find(line_limit: f64, rects: &[u32], directions: &[u32], free: &mut [u32; 5]) -> tables::Answer {
    let p = RulingsParams {
        line_cluster_xh: line_limit,
        ..settings::settings()
    };
    tables::tables(
        1.0,
        p,
        rects,
        directions,
        &mut [0; 5],
        &mut [0; 5],
        &mut [0; 5],
        &mut [0; 20],
        &mut [0; 5],
        &mut [0; 5],
        &mut [0; 5],
        &mut [0.0; 5],
        free,
        &mut [0; 5],
        &mut [0; 5],
        &mut [0; 5],
        &mut [0; 5],
    )
}
