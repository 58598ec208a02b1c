// Grids: connected sets of boxes that stand in rows or columns, with enough boxes; and the reading order of each set.
#![tactic(auto)]

mod guard;
pub mod inner;
pub mod lent;
mod minimum;

ghost use Rattle.grids.specs.Lent.{lists_of, Same};
ghost use Rattle.grids.specs.Call.{Grids};

use lent::Lists;
use params::settings::RulingsParams;

// C's struct: the number of the first missed question, 0 where none is, and how many sets and grids there are.
#[repr(C)]
#[derive(Clone, Copy)]
pub struct Answer {
    pub number: u32,
    pub sets: usize,
    pub grids: usize,
}

// The closed sets of the boxes given, the reading order of each, and which of them are grids. A refused page leaves every list.
pub fn box_grids(
    xheight: f64,
    p: RulingsParams,
    rects: &[u32],
    members: &mut [u32],
    ends: &mut [u32],
    reading: &mut [u32],
    numbers: &mut [u32],
    parents: &mut [u32],
    work: &mut [u32],
    keys: &mut [u64],
) -> Answer
    ensures { Grids (record { xheight = xheight; settings = p; rects = rects.now })
        (record {
          members = members.old;
          ends = ends.old;
          reading = reading.old;
          numbers = numbers.old;
          parents = parents.old;
          work = work.old;
          keys = keys.old;
        })
        (record {
          members = members.new;
          ends = ends.new;
          reading = reading.new;
          numbers = numbers.new;
          parents = parents.new;
          work = work.new;
          keys = keys.new;
        }) result }
{
    let mut lists = Lists {
        members,
        ends,
        reading,
        numbers,
        parents,
        work,
        keys,
    };
    find_grids(xheight, p, rects, &mut lists)
}

// The same, over the struct of the lists.
fn find_grids(xheight: f64, p: RulingsParams, rects: &[u32], lists: &mut Lists) -> Answer
    ensures answers { Grids (record { xheight = xheight; settings = p; rects = rects.now }) (lists_of lists.old) (lists_of lists.new) result }
    ensures same { Same lists.old lists.new }
{
    if let Err(missed) = guard::missed(xheight, p, rects, lists) {
        return Answer {
            number: missed.number(),
            sets: 0,
            grids: 0,
        };
    }
    let limit = inner::limit(p, xheight);
    let found = inner::find(rects, limit, p.grid_min_boxes, lists);
    Answer {
        number: 0,
        sets: found.sets,
        grids: found.grids,
    }
}
