// `level_gray`: a guard finds the first missed question, and a core does the work.
#![tactic(auto)]

ghost use Rattle.questions.specs.Missed.{number_in};
ghost use Rattle.level_gray.specs.Call.{LevelGray};

use layout::tables::Shears;
use level_questions::guard;
use questions::Missed;

// The levelled raster, where no question is missed.
#[tactic(auto, using(crate::proofs::Guards::level_refused, crate::proofs::Guards::ready_yes, crate::proofs::Guards::level_accepted))]
pub fn level_gray(shears: &Shears, gray: &[u8], out: &mut [u8]) -> Result<(), Missed>
    ensures { LevelGray shears.now.sides gray.now shears.now.shear.now shears.now.shear_x.now out.old out.new (number_in result) }
{
    guard::missed(shears, gray.len(), out.len())?;
    levelling::level(shears, gray, out);
    Ok(())
}
