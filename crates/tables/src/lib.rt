// Tables: connected sets of horizontal and vertical rulings with enough of each; the other rulings are free.
#![tactic(auto)]

pub mod inner;

ghost use Rattle.table_questions.specs.Lent.{lists_of, Same};
ghost use Rattle.tables.specs.Call.{Tables};
ghost use Rattle.tables.specs.Steps.{with_chosen};

use meeting::segment::Rulings;
use params::settings::RulingsParams;
use table_questions::guard;
use table_questions::lent::Lists;

// C's struct: the number of the first missed question, 0 where none is, and how many sets, tables and free rulings there are.
#[repr(C)]
#[derive(Clone, Copy)]
pub struct Answer {
    pub number: u32,
    pub sets: usize,
    pub tables: usize,
    pub free: usize,
}

// The closed sets of the rulings given, the tables among them with their facts, and the free list. A refused page leaves every list.
pub fn tables(
    xheight: f64,
    p: RulingsParams,
    rects: &[u32],
    directions: &[u32],
    members: &mut [u32],
    ends: &mut [u32],
    numbers: &mut [u32],
    bounds: &mut [u32],
    rows: &mut [u32],
    columns: &mut [u32],
    rulings: &mut [u32],
    shares: &mut [f64],
    free: &mut [u32],
    chosen: &mut [u32],
    parents: &mut [u32],
    work: &mut [u32],
    keys: &mut [u64],
) -> Answer
    ensures { Tables (record {
      xheight = xheight;
      settings = p;
      rects = rects.now;
      directions = directions.now;
    })
        (record {
          printed_members = members.old;
          printed_ends = ends.old;
          numbers = numbers.old;
          bounds = bounds.old;
          rows = rows.old;
          columns = columns.old;
          rulings = rulings.old;
          shares = shares.old;
          free = free.old;
          chosen = chosen.old;
          parents = parents.old;
          work = work.old;
          keys = keys.old;
        })
        (record {
          printed_members = members.new;
          printed_ends = ends.new;
          numbers = numbers.new;
          bounds = bounds.new;
          rows = rows.new;
          columns = columns.new;
          rulings = rulings.new;
          shares = shares.new;
          free = free.new;
          chosen = chosen.new;
          parents = parents.new;
          work = work.new;
          keys = keys.new;
        }) result }
{
    let mut lists = Lists {
        members,
        ends,
        numbers,
        bounds,
        rows,
        columns,
        rulings,
        shares,
        free,
        parents,
        work,
        keys,
    };
    find_tables(xheight, p, rects, directions, chosen, &mut lists)
}

// The same, over the struct of the lists.
fn find_tables(
    xheight: f64,
    p: RulingsParams,
    rects: &[u32],
    directions: &[u32],
    chosen: &mut [u32],
    lists: &mut Lists,
) -> Answer
    ensures answers { Tables (record {
      xheight = xheight;
      settings = p;
      rects = rects.now;
      directions = directions.now;
    })
        (with_chosen (lists_of lists.old) chosen.old) (with_chosen (lists_of lists.new) chosen.new) result }
    ensures same { Same lists.old lists.new }
{
    if let Err(missed) = guard::missed_by_lists(xheight, p, rects, directions, lists, chosen) {
        return Answer {
            number: missed.number(),
            sets: 0,
            tables: 0,
            free: 0,
        };
    }
    let n = rects.len() / 4;
    sets::begin(chosen, n);
    let all = Rulings {
        rects,
        directions,
        chosen: &chosen[..n],
    };
    let found = inner::find(&all, shapes::limits::limits_of(p, xheight), lists);
    Answer {
        number: 0,
        sets: found.sets,
        tables: found.tables,
        free: found.free,
    }
}
