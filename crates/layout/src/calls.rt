// The calls: a guard finds the first missed question, and a core does the work.
ghost use Rattle.std.specs.Prelude.{◌≡◌};
ghost use Rattle.questions.specs.Questions.{first_missed};
ghost use Rattle.questions.specs.Missed.{number_in};
ghost use Rattle.layout.specs.Call.{map_questions, ToPage, RectToPage};

use crate::page::{Levelled, PagePlace};
use crate::rect::PageRect;
use crate::sides;
use crate::tables::Shears;
use questions::{Missed, ask};
use rects::Rect;

// The guard of `to_page` and `rect_to_page`.
#[tactic(auto, using(crate::proofs::Guards::page_within))]
pub fn missed(shears: &Shears, r: Rect) -> Result<(), Missed>
    ensures { number_in result ≡ first_missed (map_questions shears.now.sides shears.now.shear.now shears.now.shear_x.now r) }
{
    let sides = shears.sides;
    ask(sides::sides_fit(sides), Missed::Sides)?;
    ask(shears.tables_long(), Missed::Lengths)?;
    ask(shears.tables_fit(), Missed::Shears)?;
    ask(r.is_inside(sides.w, sides.h), Missed::Rectangles)
}

// `to_page` of a levelled place.
#[tactic(auto, using(crate::proofs::Guards::to_page_ready, crate::proofs::Pixels::to_page_is))]
pub fn to_page(shears: &Shears, p: Levelled) -> Result<PagePlace, Missed>
    ensures { ToPage shears.now.sides shears.now.shear.now shears.now.shear_x.now p result }
{
    let pixel = Rect {
        x0: p.0,
        y0: p.1,
        x1: p.0,
        y1: p.1,
    };
    missed(shears, pixel)?;
    Ok(shears.to_page(p))
}

// `rect_to_page` of a rectangle of the levelled picture.
#[tactic(auto, using(crate::proofs::Guards::rect_to_page_ready))]
pub fn rect_to_page(shears: &Shears, r: Rect) -> Result<PageRect, Missed>
    ensures { RectToPage shears.now.sides shears.now.shear.now shears.now.shear_x.now r result }
{
    missed(shears, r)?;
    Ok(shears.rect_to_page(r))
}
