// The boxes of a page, written as they are found.
#![tactic(auto)]

pub mod lent;

ghost use Rattle.std.specs.Prelude.{◌≤◌};
ghost use Rattle.rects.specs.Rects.{count};
ghost use Rattle.box_lists.specs.Steps.{lists_of, Same, RoomAt, Stored, Widths, NextWide, Ready, Made};

use glyph_tests::found::CheckBox;
use glyph_tests::limits::Limits;
use ink::{Mask, Region};
use lent::Lists;

// Stores a box after n others, and returns how many there are.
fn store(lists: &mut Lists, n: usize, found: Option<CheckBox>) -> usize
    requires { RoomAt n (lists_of lists.old) }
    ensures stored { Stored found n (lists_of lists.old) (lists_of lists.new) result }
    ensures same { Same lists.old lists.new }
{
    let Some(b) = found else {
        return n;
    };
    rects::put_rect(lists.rects, n, b.bbox);
    // 1 where it is ticked and 0 where it is empty: a number, since C's lists hold it.
    lists.marks[n] = u32::from(b.ticked);
    lists.coverages[n] = b.edge_coverage;
    n + 1
}

// The first glyph box at or past `from` that is at least so wide, and their number where there is none. A narrower one is
// passed over by its first test, and no more of it is read. A number and no `Option`, since the walk of `find` stops where the boxes end.
fn next_wide(glyphs: &[u32], least: u64, from: usize) -> usize
    requires { Widths glyphs.now × (from ≤ count glyphs.now) }
    ensures { NextWide glyphs.now least from result }
{
    let n = glyphs.len() / 4;
    // A `for` takes half as long again here (bench/run boxes, "all too narrow"), and is then slower than the Rust.
    let mut k = from;
    while k < n {
        if least <= u64::from(rects::rect_at(glyphs, k).width()) {
            return k;
        }
        k += 1;
    }
    n
}

// The boxes of a page that passed its questions, and how many there are.
pub fn find(mask: &Mask, glyphs: &[u32], l: Limits, lists: &mut Lists) -> usize
    requires { Ready mask.now.bytes mask.now.w glyphs.now l (lists_of lists.old) }
    ensures made { Made mask.now.bytes mask.now.w glyphs.now l (lists_of lists.old) (lists_of lists.new) result }
    ensures same { Same lists.old lists.new }
{
    let count = glyphs.len() / 4;
    let least = glyph_tests::sizes::whole_part(l.min_size);
    let mut n = 0;
    let mut k = next_wide(glyphs, least, 0);
    // The walk skips the narrow ones, so it stays a `while`.
    while k < count {
        // Lent again by `&*`, since the borrow checker wants one lifetime of both references of a region.
        let glyph = Region::new(&*mask, rects::rect_at(glyphs, k));
        let found = glyph_tests::found::test_glyph(&glyph, l);
        n = store(lists, n, found);
        k = next_wide(glyphs, least, k + 1);
    }
    n
}
