// The questions that `box_grids` puts.
ghost use Rattle.std.specs.Prelude.{◌≡◌};
ghost use Rattle.questions.specs.Questions.{first_missed};
ghost use Rattle.questions.specs.Missed.{number_in};
ghost use Rattle.grids.specs.Lent.{lists_of};
ghost use Rattle.grids.specs.Call.{questions};

use crate::lent::Lists;
use params::settings::RulingsParams;
use questions::{Missed, ask};

pub fn missed(xheight: f64, p: RulingsParams, rects: &[u32], lists: &Lists) -> Result<(), Missed>
    ensures { number_in result ≡ first_missed (questions (record { xheight = xheight; settings = p; rects = rects.now }) (lists_of lists.now)) }
{
    params::scan::missed_by_xheight(xheight)?;
    ask(rects::count_fits(rects, 16384), Missed::Counts)?;
    ask(rects::all_inside(rects, 8192, 8192), Missed::Rectangles)?;
    params::validate::missed_by_settings(p)?;
    ask(lists.room_for(rects.len() / 4), Missed::Room)
}
