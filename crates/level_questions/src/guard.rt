// The guard of `level_gray` and `unlevel`.
ghost use Rattle.std.specs.Prelude.{◌≡◌};
ghost use Rattle.questions.specs.Questions.{first_missed};
ghost use Rattle.questions.specs.Missed.{number_in};
ghost use Rattle.level_questions.specs.Questions.{level_questions};

use layout::sides;
use layout::tables::Shears;
use questions::{Missed, ask};

// page and level are the lengths of the page raster and of the levelled raster.
#[tactic(auto, using(crate::proofs::Guards::sides_are))]
pub fn missed(shears: &Shears, page: usize, level: usize) -> Result<(), Missed>
    ensures { number_in result ≡ first_missed (level_questions shears.now.sides page shears.now.shear.now shears.now.shear_x.now level) }
{
    let sides = shears.sides;
    ask(sides::sides_fit(sides), Missed::Sides)?;
    let page_fits = sides::raster_fits(sides.pw, sides.ph, page);
    let level_fits = sides::raster_fits(sides.w, sides.h, level);
    ask(page_fits & shears.tables_long(), Missed::Lengths)?;
    ask(shears.tables_fit(), Missed::Shears)?;
    ask(level_fits, Missed::Room)
}
