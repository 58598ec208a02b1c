// The contrast of one ruling: the level of the paper beside it less the mean of the darkest pixels across it.
#![tactic(auto)]

ghost use Rattle.paper.specs.Steps.{OnPicture};
ghost use Rattle.contrast.specs.Steps.{Contrasted};

mod columns;
mod darkest;

use paper::Raster;
use rects::Rect;

// `horizontal` says whether the ruling is. A bool, as the Rust has it: a test finds it (`pieces`).
pub fn contrast(raster: &Raster, r: Rect, horizontal: bool) -> f64
    requires { OnPicture raster.now r }
    ensures { Contrasted raster.now r horizontal result }
{
    let mut counts = [0u32; 256];
    let n = raster.sample(r, horizontal, &mut counts);
    let level = f64::from(paper::level::level(&counts, n));
    let sum = f64::from(darkest::darkest_sum(raster, r, horizontal));
    let along = f64::from(darkest::along(r, horizontal));
    level - sum / along
}
