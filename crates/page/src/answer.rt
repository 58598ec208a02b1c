// What `detect` returns.
ghost use Rattle.std.specs.Prelude.{◌≡◌, cond};
ghost use Rattle.page.specs.Answer.{answer_of, accepted, refusal};

use crate::counts::Counts;
use questions::Missed;

// C's struct: the number of the first missed question, 0 for none; then the counts, all 0 where one is missed. Of pieces there are as many sets as
// rulings.
#[repr(C)]
#[derive(Clone, Copy)]
pub struct Answer {
    pub number: u32,
    pub rulings: usize,
    pub printed: usize,
    pub faint: usize,
    pub tables: usize,
    pub boxes: usize,
    pub grids: usize,
    pub findings: usize,
    pub printed_sets: usize,
    pub free: usize,
    pub box_sets: usize,
}

fn counted(number: u32, n: Counts, findings: usize) -> Answer
    ensures { result ≡ answer_of number n findings }
{
    Answer {
        number,
        rulings: n.rulings,
        printed: n.printed,
        faint: n.faint,
        tables: n.tables,
        boxes: n.boxes,
        grids: n.grids,
        findings,
        printed_sets: n.printed_sets,
        free: n.free,
        box_sets: n.box_sets,
    }
}

// A number: what is refused has one, whoever asked.
pub fn refused(number: u32) -> Answer
    ensures { result ≡ refusal number }
{
    counted(number, Counts::default(), 0)
}

// Question 15: is every evidence number finite? A bool: the counts are known either way.
pub fn answered(n: Counts, findings: usize, finite: bool) -> Answer
    ensures { result ≡ cond finite (accepted n findings) (refusal 15) }
{
    if finite {
        counted(0, n, findings)
    } else {
        refused(Missed::Evidence.number())
    }
}
