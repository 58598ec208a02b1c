// `unlevel`: a guard finds the first missed question, and a core does the work.
#![tactic(auto)]

ghost use Rattle.questions.specs.Missed.{number_in};
ghost use Rattle.unlevel.specs.Call.{Unlevel};

use layout::tables::Shears;
use level_questions::guard;
use questions::Missed;

// The page, where no question is missed. One function for this and `level_gray` would be no plainer, since they share the guard alone.
#[tactic(auto, using(crate::proofs::Guards::unlevel_refused, crate::proofs::Guards::archived_yes, crate::proofs::Guards::unlevel_accepted))]
pub fn unlevel(shears: &Shears, level: &[u8], out: &mut [u8]) -> Result<(), Missed>
    ensures { Unlevel shears.now.sides level.now shears.now.shear.now shears.now.shear_x.now out.old out.new (number_in result) }
{
    guard::missed(shears, out.len(), level.len())?;
    unlevelling::unlevel(shears, level, out);
    Ok(())
}
