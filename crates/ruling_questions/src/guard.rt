// The first missed of the questions, in order.
ghost use Rattle.std.specs.Prelude.{◌≡◌, ◌&&◌, ◌≤◌, length};
ghost use Rattle.questions.specs.Questions.{first_missed};
ghost use Rattle.questions.specs.Missed.{number_in};
ghost use Rattle.rects.specs.Rects.{count};
ghost use Rattle.layout.specs.Sides.{raster_fits};
ghost use Rattle.ruling_questions.specs.Lent.{lists_of, room_for};
ghost use Rattle.ruling_questions.specs.Questions.{ruling_questions};
ghost use Rattle.ruling_questions.specs.Steps.{answers_fit, work_fits};

use crate::lent::Lists;
use params::settings::RulingsParams;
use questions::{Missed, ask};

// Question 14 of the lists that are written.
#[tactic(auto, unfolding(layout::specs::Sides::raster_fits))]
fn answers_fit(
    w: usize,
    h: usize,
    n: usize,
    raster: usize,
    rects: usize,
    directions: usize,
    contrasts: usize,
    members: usize,
    ends: usize,
) -> bool
    requires { (w ≤ 8192) × (h ≤ 8192) }
    ensures { result ≡ answers_fit w h n raster rects directions contrasts members ends }
{
    layout::sides::raster_fits(w, h, raster)
        & (n <= rects / 4)
        & (n <= directions)
        & (n <= contrasts)
        & (n <= members)
        & (n <= ends)
}

// Question 14 of the work lists.
fn work_fits(
    n: usize,
    parents: usize,
    listed: usize,
    listed_ends: usize,
    work: usize,
    keys: usize,
) -> bool
    ensures { result ≡ work_fits n parents listed listed_ends work keys }
{
    (n <= parents) & (n <= listed) & (n <= listed_ends) & (n <= work) & (n <= keys)
}

// The lists are given by their lengths.
pub fn missed(
    w: usize,
    h: usize,
    xheight: f64,
    pieces: &[u32],
    p: RulingsParams,
    raster: usize,
    rects: usize,
    directions: usize,
    contrasts: usize,
    members: usize,
    ends: usize,
    parents: usize,
    listed: usize,
    listed_ends: usize,
    work: usize,
    keys: usize,
) -> Result<(), Missed>
    ensures { number_in result ≡ first_missed (ruling_questions w h xheight pieces.now p
        (answers_fit w h (count pieces.now) raster rects directions contrasts members ends
        && work_fits (count pieces.now) parents listed listed_ends work keys)) }
{
    ask(layout::sides::levelled_sides_fit(w, h), Missed::Sides)?;
    params::scan::missed_by_xheight(xheight)?;
    ask(rects::count_fits(pieces, 4096), Missed::Counts)?;
    ask(rects::all_inside(pieces, w, h), Missed::Rectangles)?;
    params::validate::missed_by_settings(p)?;
    let n = pieces.len() / 4;
    let answers = answers_fit(w, h, n, raster, rects, directions, contrasts, members, ends);
    let room = work_fits(n, parents, listed, listed_ends, work, keys);
    ask(answers & room, Missed::Room)
}

// The same, with room as the lists have it.
pub fn missed_by_lists(
    w: usize,
    h: usize,
    xheight: f64,
    pieces: &[u32],
    p: RulingsParams,
    raster: &[u8],
    lists: &Lists,
) -> Result<(), Missed>
    ensures { number_in result ≡ first_missed (ruling_questions w h xheight pieces.now p
        (raster_fits w h (length raster.now) && room_for (count pieces.now) (lists_of lists.now))) }
{
    missed(
        w,
        h,
        xheight,
        pieces,
        p,
        raster.len(),
        lists.rects.len(),
        lists.directions.len(),
        lists.contrasts.len(),
        lists.piece_members.len(),
        lists.piece_ends.len(),
        lists.parents.len(),
        lists.listed.len(),
        lists.listed_ends.len(),
        lists.work.len(),
        lists.keys.len(),
    )
}
