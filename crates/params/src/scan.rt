// Question 2: the resolution and the x-height of a scan. A call that is given only the x-height asks only about that.
ghost use Rattle.std.specs.Prelude.{◌≡◌};
ghost use Rattle.questions.specs.Questions.{first_missed};
ghost use Rattle.questions.specs.Missed.{number_in};
ghost use Rattle.params.specs.Scan.{xheight_in_range, scan_questions, xheight_questions};

use questions::{Missed, ask};

fn xheight_in_range(xheight: f64) -> bool
    ensures { result ≡ xheight_in_range xheight }
{
    select::finite(xheight) & (0.0 < xheight) & (xheight <= 4096.0)
}

pub fn missed_by_scan(dpi: u16, xheight: f64) -> Result<(), Missed>
    ensures { number_in result ≡ first_missed (scan_questions dpi xheight) }
{
    ask((dpi != 0) & xheight_in_range(xheight), Missed::Scale)
}

pub fn missed_by_xheight(xheight: f64) -> Result<(), Missed>
    ensures { number_in result ≡ first_missed (xheight_questions xheight) }
{
    ask(xheight_in_range(xheight), Missed::Scale)
}
