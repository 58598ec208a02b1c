// The questions that `tables` puts.
ghost use Rattle.std.specs.Prelude.{◌≡◌};
ghost use Rattle.rects.specs.Rects.{count};
ghost use Rattle.questions.specs.Questions.{first_missed};
ghost use Rattle.questions.specs.Missed.{number_in};
ghost use Rattle.table_questions.specs.Questions.{directions_fit, table_questions};
ghost use Rattle.table_questions.specs.Lent.{lists_of, room_for};

use crate::lent::Lists;
use params::settings::RulingsParams;
use questions::{Missed, ask};

fn directions_fit(rects: &[u32], directions: &[u32]) -> bool
    ensures { result ≡ directions_fit rects.now directions.now }
{
    directions.len() == rects.len() / 4 && directions.iter().all(|d| *d <= 1)
}

pub fn missed(
    xheight: f64,
    p: RulingsParams,
    rects: &[u32],
    directions: &[u32],
    room: bool,
) -> Result<(), Missed>
    ensures { number_in result ≡ first_missed (table_questions xheight p rects.now directions.now room) }
{
    params::scan::missed_by_xheight(xheight)?;
    let given = rects::count_fits(rects, 4096) & directions_fit(rects, directions);
    ask(given, Missed::Counts)?;
    ask(rects::all_inside(rects, 8192, 8192), Missed::Rectangles)?;
    params::validate::missed_by_settings(p)?;
    ask(room, Missed::Room)
}

// The same, with room as the lists have it.
pub fn missed_by_lists(
    xheight: f64,
    p: RulingsParams,
    rects: &[u32],
    directions: &[u32],
    lists: &Lists,
    chosen: &[u32],
) -> Result<(), Missed>
    ensures { number_in result ≡ first_missed (table_questions xheight p rects.now directions.now
        (room_for (count rects.now) (lists_of lists.now) chosen.now)) }
{
    let room = lists.room_for(rects.len() / 4, chosen);
    missed(xheight, p, rects, directions, room)
}
