// The questions that `boxes` asks.
ghost use Rattle.std.specs.Prelude.{◌≡◌, ◌*◌, ◌<◌, ◌^◌};
ghost use Rattle.questions.specs.Questions.{first_missed};
ghost use Rattle.questions.specs.Missed.{number_in};
ghost use Rattle.box_lists.specs.Steps.{lists_of};
ghost use Rattle.boxes.specs.Call.{room_for, questions};

use box_lists::lent::Lists;
use params::settings::RulingsParams;
use questions::{Missed, ask};

// Question 14: is there room for n boxes?
fn room_fits(n: usize, lists: &Lists) -> bool
    requires { 4 * n < 2 ^ 64 }
    ensures { result ≡ room_for n (lists_of lists.now) }
{
    (4 * n <= lists.rects.len()) & (n <= lists.marks.len()) & (n <= lists.coverages.len())
}

pub fn missed(
    w: usize,
    h: usize,
    dpi: u16,
    xheight: f64,
    ink: &[u8],
    glyphs: &[u32],
    p: RulingsParams,
    lists: &Lists,
) -> Result<(), Missed>
    ensures { number_in result ≡ first_missed (questions (record {
      w = w;
      h = h;
      dpi = dpi;
      xheight = xheight;
      settings = p;
      ink = ink.now;
      glyphs = glyphs.now;
    })
        (lists_of lists.now)) }
{
    ask(layout::sides::levelled_sides_fit(w, h), Missed::Sides)?;
    params::scan::missed_by_scan(dpi, xheight)?;
    ask(layout::sides::raster_fits(w, h, ink.len()), Missed::Lengths)?;
    ask(rects::count_fits(glyphs, 16384), Missed::Counts)?;
    ask(rects::all_inside(glyphs, w, h), Missed::Rectangles)?;
    params::validate::missed_by_settings(p)?;
    ask(room_fits(glyphs.len() / 4, lists), Missed::Room)
}
