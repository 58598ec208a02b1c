// A levelled place back to the page (crate `layout`); pw and ph are the page's sides, w and h the
// levelled picture's.
ghost use Rattle.answers.specs.Mapped.{PlaceMapped};

use layout::page::Levelled;
use layout::sides::Sides;
use layout::tables::Shears;

// The number of the first missed question, as C gets it, and the page place, 0 and 0 on refusal.
#[repr(C)]
#[derive(Clone, Copy)]
pub struct ToPageAnswer {
    pub number: u32,
    pub x: i64,
    pub y: i64,
}

#[tactic(auto, using(crate::proofs::Answered::place_answered, crate::proofs::Answered::place_refused))]
pub fn to_page(
    pw: usize,
    ph: usize,
    w: usize,
    h: usize,
    shear: &[i32],
    shear_x: &[i32],
    x: u32,
    y: u32,
) -> ToPageAnswer
    ensures { PlaceMapped (record { pw = pw; ph = ph; w = w; h = h }) shear.now shear_x.now (record { 0 = x; 1 = y }) result }
{
    let sides = Sides { pw, ph, w, h };
    let shears = Shears {
        sides,
        shear,
        shear_x,
    };
    match layout::calls::to_page(&shears, Levelled(x, y)) {
        Ok(p) => ToPageAnswer {
            number: 0,
            x: p.0,
            y: p.1,
        },
        Err(question) => ToPageAnswer {
            number: question.number(),
            x: 0,
            y: 0,
        },
    }
}
