// The call: pieces to rulings.
ghost use Rattle.ruling_lists.specs.Rulings.{ordered_sets};
ghost use Rattle.ruling_questions.specs.Lent.{lists_of, Same};
ghost use Rattle.segments.specs.Call.{Segments};
ghost use Rattle.segments.specs.Steps.{Ready, Made, WorkLong};

use listings::listed::Sets;
use paper::Raster;
use params::settings::RulingsParams;
use ruling_lists::{sets_of_pieces, write};
use ruling_questions::guard;
use ruling_questions::lent::Lists;

// The number of the first missed question, 0 where the page is accepted, and the number of rulings. No `Result`: C gets
// it as it is.
#[repr(C)]
#[derive(Clone, Copy)]
pub struct Answer {
    pub number: u32,
    pub count: usize,
}

// The rulings of a page that passed its questions, and how many there are. Once the sets are listed, the parents hold their order.
pub fn rulings(raster: &Raster, pieces: &[u32], across: u32, gap: u32, lists: &mut Lists) -> usize
    requires { Ready raster.now pieces.now (lists_of lists.old) }
    ensures made { Made raster.now pieces.now (ordered_sets pieces.now across gap)
        (lists_of lists.old) (lists_of lists.new) result }
    ensures work_long { WorkLong (lists_of lists.old) (lists_of lists.new) }
    ensures same { Same lists.old lists.new }
{
    let members = &mut *lists.listed;
    let ends = &mut *lists.listed_ends;
    let count = sets_of_pieces::list_sets(
        pieces,
        across,
        gap,
        lists.parents,
        members,
        ends,
        lists.work,
        lists.keys,
    );
    let listed = Sets {
        members,
        ends,
        count,
    };
    let order = &mut *lists.parents;
    sets_of_pieces::order_sets(pieces, &listed, order, lists.work, lists.keys);
    let members = &mut *lists.piece_members;
    let ends = &mut *lists.piece_ends;
    write::write_sets(order, &listed, members, ends);
    let sets = Sets {
        members,
        ends,
        count,
    };
    write::write_rulings(
        raster,
        pieces,
        &sets,
        lists.rects,
        lists.directions,
        lists.contrasts,
    );
    count
}

// Joins the rule pieces of a levelled page to rulings. A page that misses a question is refused with its number, and nothing is written.
pub fn segments(
    raster: &[u8],
    w: usize,
    h: usize,
    xheight: f64,
    pieces: &[u32],
    p: RulingsParams,
    rects: &mut [u32],
    directions: &mut [u32],
    contrasts: &mut [f64],
    members: &mut [u32],
    ends: &mut [u32],
    parents: &mut [u32],
    listed: &mut [u32],
    listed_ends: &mut [u32],
    work: &mut [u32],
    keys: &mut [u64],
) -> Answer
    ensures { Segments (record {
      raster = raster.now;
      w = w;
      h = h;
      xheight = xheight;
      settings = p;
      pieces = pieces.now;
    })
        (record {
          rects = rects.old;
          directions = directions.old;
          contrasts = contrasts.old;
          piece_members = members.old;
          piece_ends = ends.old;
          parents = parents.old;
          listed = listed.old;
          listed_ends = listed_ends.old;
          work = work.old;
          keys = keys.old;
        })
        (record {
          rects = rects.new;
          directions = directions.new;
          contrasts = contrasts.new;
          piece_members = members.new;
          piece_ends = ends.new;
          parents = parents.new;
          listed = listed.new;
          listed_ends = listed_ends.new;
          work = work.new;
          keys = keys.new;
        }) result }
{
    let mut lists = Lists {
        rects,
        directions,
        contrasts,
        piece_members: members,
        piece_ends: ends,
        parents,
        listed,
        listed_ends,
        work,
        keys,
    };
    find_rulings(raster, w, h, xheight, pieces, p, &mut lists)
}

// The same, over the struct of the lists.
fn find_rulings(
    raster: &[u8],
    w: usize,
    h: usize,
    xheight: f64,
    pieces: &[u32],
    p: RulingsParams,
    lists: &mut Lists,
) -> Answer
    ensures answers { Segments (record {
      raster = raster.now;
      w = w;
      h = h;
      xheight = xheight;
      settings = p;
      pieces = pieces.now;
    }) (lists_of lists.old) (lists_of lists.new) result }
    ensures same { Same lists.old lists.new }
{
    if let Err(missed) = guard::missed_by_lists(w, h, xheight, pieces, p, raster, lists) {
        return Answer {
            number: missed.number(),
            count: 0,
        };
    }
    let across = params::pixels::limit_u32(p.merge_across_xh, xheight);
    let gap = params::pixels::limit_u32(p.merge_gap_xh, xheight);
    let raster = Raster {
        pixels: raster,
        w,
        h,
    };
    let count = rulings(&raster, pieces, across, gap, lists);
    Answer { number: 0, count }
}
