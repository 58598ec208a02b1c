// The lines of a region, its rows or its columns: the first and the last over a limit, and the longest run of lines with ink.
#![tactic(auto)]

ghost use Rattle.std.specs.Prelude.{◌≡◌, cond, false, ℕ, suc, ◌+◌, ◌^◌, ◌≤◌, ◌<◌, ltb};
ghost use Rattle.ink.specs.Ink.{inked};
ghost use Rattle.ink.specs.Steps.{lines_of, line_ink};
ghost use Rattle.ink.specs.Places.{over, first_place, last_end, longest_run};

use ink::{Lines, Region, read};
use rects::Rect;

// How many lines there are.
pub fn lines_of(r: Rect, lines: Lines) -> u32
    requires { (r.x0 ≤ r.x1) × (r.y0 ≤ r.y1) × (r.x1 + 1 < 2 ^ 32) × (r.y1 + 1 < 2 ^ 32) }
    ensures { result ≡ lines_of r lines }
{
    match lines {
        Lines::Rows => r.height(),
        Lines::Columns => r.width(),
    }
}

// The ink in line k.
fn line_count(r: &Region, lines: Lines, k: u32) -> u32
    requires { k < lines_of r.now.rect lines }
    ensures { result ≡ line_ink (inked r.now.mask) r.now.rect lines k }
{
    match lines {
        Lines::Rows => r.row_count(k),
        Lines::Columns => r.column_count(k),
    }
}

// Has line k any ink?
fn line_has_ink(r: &Region, lines: Lines, k: u32) -> bool
    requires { k < lines_of r.now.rect lines }
    ensures { result ≡ ltb 0 (line_ink (inked r.now.mask) r.now.rect lines k) }
{
    match lines {
        Lines::Rows => r.row_has_ink(k),
        Lines::Columns => r.column_has_ink(k),
    }
}

// How many lines may be passed over from the front, since none of them is over the limit: columns are tried in bands.
fn passed_from_front(r: &Region, lines: Lines, limit: f64) -> u32
    ensures { (result ≤ lines_of r.now.rect lines) × ((i : ℕ) → i < result → over limit (line_ink (inked r.now.mask) r.now.rect lines i) ≡ false) }
{
    match lines {
        Lines::Rows => 0,
        Lines::Columns => ink_bands::first_columns(r, limit),
    }
}

// Where those begin that may be passed over from the back.
fn passed_from_back(r: &Region, lines: Lines, limit: f64) -> u32
    ensures { (result ≤ lines_of r.now.rect lines)
        × ((i : ℕ) → result ≤ i → i < lines_of r.now.rect lines → over limit (line_ink (inked r.now.mask) r.now.rect lines i) ≡ false) }
{
    match lines {
        Lines::Rows => r.height(),
        Lines::Columns => ink_bands::last_columns(r, limit),
    }
}

// The first line whose ink is over the limit, and the number of lines where none is. A number and no `Option`: it is where the search
// stopped, and a caller compares it with the number of lines.
pub fn first_line(r: &Region, lines: Lines, limit: f64) -> u32
    ensures { result ≡ first_place (λ k. over limit (line_ink (inked r.now.mask) r.now.rect lines k)) (lines_of r.now.rect lines) }
{
    let n = lines_of(r.rect, lines);
    let passed = passed_from_front(r, lines, limit);
    for k in passed..n {
        if read::is_over(limit, line_count(r, lines, k)) {
            return k;
        }
    }
    n
}

// One more than the last line whose ink is over the limit, and 0 where none is. A number and no `Option`: it is an end, and a caller asks
// for it where `first_line` found a line.
pub fn last_line_end(r: &Region, lines: Lines, limit: f64) -> u32
    ensures { result ≡ last_end (λ k. over limit (line_ink (inked r.now.mask) r.now.rect lines k)) (lines_of r.now.rect lines) }
{
    let end = passed_from_back(r, lines, limit);
    for k in (0..end).rev() {
        if read::is_over(limit, line_count(r, lines, k)) {
            return k + 1;
        }
    }
    0
}

// The longest unbroken run of lines that have ink.
pub fn longest(r: &Region, lines: Lines) -> u32
    ensures { result ≡ longest_run (λ k. ltb 0 (line_ink (inked r.now.mask) r.now.rect lines k)) (lines_of r.now.rect lines) }
{
    let mut best = 0;
    let mut run = 0;
    for k in 0..lines_of(r.rect, lines) {
        run = longer_run(run, line_has_ink(r, lines, k));
        best = best.max(run);
    }
    best
}

// One longer where the line has ink, and 0 at a gap. `inked` is a bool, since it is what a test found.
fn longer_run(run: u32, inked: bool) -> u32
    requires { run < 8192 }
    ensures { result ≡ cond inked (suc run) 0 }
{
    if inked { run + 1 } else { 0 }
}
