// A box 16 wide: its inner columns are the middle 8, from 4 to 11.
use crate::{settings, show};
use params::settings::RulingsParams;
use std::io;

pub fn run(rt: &impl Print) -> io::Result<()> {
    let before = mark_with(3) == Some(0) && mark_with(4) == Some(1);
    let behind = mark_with(11) == Some(1) && mark_with(12) == Some(0);
    show(
        rt,
        "box 16 wide: inner columns are the middle 8",
        before && behind,
    )
}

// Is there ink at place k of a picture of 16 by 16: a frame one pixel wide, and one pixel in row 8?
fn ink_at(k: usize, column: usize) -> u8 {
    let x = k % 16;
    let y = k / 16;
    let framed = x == 0 || x == 15 || y == 0 || y == 15;
    u8::from(framed || x == column && y == 8)
}

// The mark of the one box of that picture, where one pixel of 64 makes a tick; none for any other answer.
fn mark_with(column: usize) -> Option<u32> {
    let mut ink = [0u8; 256];
    draw(column, &mut ink);
    let mut marks = [0];
    let answer = boxes::boxes(
        16,
        16,
        1,
        1.0,
        &ink,
        &[0, 0, 15, 15],
        box_settings(),
        &mut [0; 4],
        &mut marks,
        &mut [0.0],
    );
    if answer.number == 0 && answer.count == 1 {
        Some(marks[0])
    } else {
        None
    }
}

fn draw(column: usize, ink: &mut [u8]) {
    for (k, place) in ink.iter_mut().enumerate() {
        *place = ink_at(k, column);
    }
}

// The settings of the other samples, but for those that a box needs.
fn box_settings() -> RulingsParams {
    RulingsParams {
        box_max_xh: 16.0,
        box_max_inner_ink: 1.0,
        box_checked_ink: 0.015625,
        ..settings::settings()
    }
}
