// The boxes that grids' findings are made from.
ghost use Rattle.grid_findings.specs.Boxes.{Boxes};

use listings::listed::Sets;
use std::marker::Model;

// The boxes, the listing of their sets, and the numbers of the sets that are grids.
#[derive(Drop)]
pub struct BoxLists<'a> {
    pub rects: &'a [u32],
    pub marks: &'a [u32],
    pub coverages: &'a [f64],
    pub sets: Sets<'a>,
    pub grids: &'a [u32],
}

impl<'a> Model for BoxLists<'a> {
    ghost Value = { Boxes };

    ghost view = { λ b. record {
      rects = b.rects.now;
      marks = b.marks.now;
      coverages = b.coverages.now;
      members = b.sets.members.now;
      ends = b.sets.ends.now;
      count = b.sets.count;
      grids = b.grids.now;
    } };
}
