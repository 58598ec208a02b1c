// The questions that `detect` puts to a page, in document 01's order.
ghost use Rattle.std.specs.Prelude.{◌≡◌, true};
ghost use Rattle.questions.specs.Questions.{first_missed};
ghost use Rattle.questions.specs.Missed.{number_in};
ghost use Rattle.layout.specs.Sides.{sides_fit};
ghost use Rattle.page.specs.Lent.{lent};
ghost use Rattle.page.specs.Questions.{rasters_long, given_of_scan, given_of_lists, given_of_settings, given_questions, first_questions};

use crate::given::Page;
use crate::lent::{LentMarks, LentRules};
use crate::room;
use finding_lists::lent::LentFindings;
use layout::sides;
use layout::tables::Shears;
use params::settings::{FusionParams, RulingsParams};
use questions::{Missed, ask};

// Question 3, of the rasters.
fn rasters_long(page: &Page) -> bool
    requires { sides_fit page.now.sides ≡ true }
    ensures { result ≡ rasters_long page.now }
{
    let s = page.sides;
    sides::raster_fits(s.pw, s.ph, page.gray.len()) & sides::raster_fits(s.w, s.h, page.ink.len())
}

// Questions 1 and 2.
fn missed_by_scan(page: &Page) -> Result<(), Missed>
    ensures { number_in result ≡ first_missed (given_of_scan page.now) }
{
    ask(sides::sides_fit(page.sides), Missed::Sides)?;
    params::scan::missed_by_scan(page.dpi, page.xheight)
}

// Questions 3 to 6.
fn missed_by_lists(page: &Page) -> Result<(), Missed>
    requires { sides_fit page.now.sides ≡ true }
    ensures { number_in result ≡ first_missed (given_of_lists page.now) }
{
    let s = page.sides;
    let shears = Shears {
        sides: s,
        shear: page.shear,
        shear_x: page.shear_x,
    };
    let shears_fit = shears.tables_fit();
    let counted = rects::count_fits(page.pieces, 4096) & rects::count_fits(page.glyphs, 16384);
    let inside = rects::all_inside(page.pieces, s.w, s.h)
        & rects::all_inside(page.glyphs, s.w, s.h);
    ask(rasters_long(page) & shears.tables_long(), Missed::Lengths)?;
    ask(shears_fit, Missed::Shears)?;
    ask(counted, Missed::Counts)?;
    ask(inside, Missed::Rectangles)
}

// Questions 7 to 13.
fn missed_by_settings(p: RulingsParams, f: FusionParams) -> Result<(), Missed>
    ensures { number_in result ≡ first_missed (given_of_settings p f) }
{
    params::validate::validate(p)?;
    params::validate::missed_by_fusion(f)?;
    params::validate::missed_by_free_rules(p)
}

// Questions 1 to 13, about the page alone.
pub fn missed_by_given(page: &Page) -> Result<(), Missed>
    ensures { number_in result ≡ first_missed (given_questions page.now) }
{
    missed_by_scan(page)?;
    missed_by_lists(page)?;
    missed_by_settings(page.settings, page.caps)
}

// Questions 1 to 14.
pub fn missed(
    page: &Page,
    rules: &LentRules,
    marks: &LentMarks,
    found: &LentFindings,
) -> Result<(), Missed>
    ensures { number_in result ≡ first_missed (first_questions page.now (lent rules.now marks.now found.now)) }
{
    missed_by_given(page)?;
    ask(room::has_room(page, rules, marks, found), Missed::Room)
}
