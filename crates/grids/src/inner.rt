// Closed sets of boxes, their reading order and the grids among them: the core, which asks for what the questions show.
ghost use Rattle.std.specs.Prelude.{◌≡◌, ◌^◌, ◌<◌};
ghost use Rattle.rects.specs.Rects.{count};
ghost use Rattle.params.specs.Limits.{align_limit};
ghost use Rattle.params.specs.Steps.{SettingsPassed};
ghost use Rattle.box_widths.specs.Steps.{PassedBoxes};
ghost use Rattle.grids.specs.Lent.{lists_of, Same};
ghost use Rattle.grids.specs.Steps.{Roomy, Filled, WorkLong};

use crate::lent::Lists;
use crate::minimum;
use listings::listed::Sets;
use params::settings::RulingsParams;

// round(2 * grid_align_xh * xheight), for settings and an x-height that passed their questions.
pub fn limit(p: RulingsParams, xheight: f64) -> u64
    requires { SettingsPassed p xheight }
    ensures { result ≡ align_limit p xheight }
{
    params::pixels::limit(2.0 * p.grid_align_xh, xheight)
}

// How many sets and grids there are.
#[derive(Clone, Copy)]
pub struct Counts {
    pub sets: usize,
    pub grids: usize,
}

// Lists the closed sets of the boxes, the reading order of each, and which of them are grids. Once the sets are listed, the parents hold
// the order of one set after another.
pub fn find(rects: &[u32], limit: u64, least: u32, lists: &mut Lists) -> Counts
    requires { (limit < 2 ^ 40) × PassedBoxes rects.now × Roomy (count rects.now) (lists_of lists.old) }
    ensures filled { Filled rects.now limit least (lists_of lists.old) (lists_of lists.new) result.sets result.grids }
    ensures work_long { WorkLong (lists_of lists.old) (lists_of lists.new) }
    ensures same { Same lists.old lists.new }
{
    let members = &mut *lists.members;
    let ends = &mut *lists.ends;
    let count = box_sets::connect(
        rects,
        limit,
        lists.parents,
        members,
        ends,
        lists.work,
        lists.keys,
    );
    let sets = Sets {
        members,
        ends,
        count,
    };
    reading_order::reading::read_sets(
        rects,
        &sets,
        lists.reading,
        lists.parents,
        lists.work,
        lists.keys,
    );
    let grids = minimum::choose(&sets, least, lists.numbers);
    Counts { sets: count, grids }
}
