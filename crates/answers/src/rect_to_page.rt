// A levelled rectangle back to the page (crate `layout`); pw and ph are the page's sides, w and h the
// levelled picture's.
ghost use Rattle.answers.specs.Mapped.{AreaMapped};

use layout::sides::Sides;
use layout::tables::Shears;
use rects::Rect;

// The number of the first missed question, as C gets it, and the page rectangle, all 0 on refusal.
#[repr(C)]
#[derive(Clone, Copy)]
pub struct RectToPageAnswer {
    pub number: u32,
    pub x0: u32,
    pub y0: u32,
    pub x1: u32,
    pub y1: u32,
}

#[tactic(auto, using(crate::proofs::Answered::area_answered, crate::proofs::Answered::area_refused))]
pub fn rect_to_page(
    pw: usize,
    ph: usize,
    w: usize,
    h: usize,
    shear: &[i32],
    shear_x: &[i32],
    x0: u32,
    y0: u32,
    x1: u32,
    y1: u32,
) -> RectToPageAnswer
    ensures { AreaMapped (record { pw = pw; ph = ph; w = w; h = h }) shear.now shear_x.now
        (record { x0 = x0; y0 = y0; x1 = x1; y1 = y1 }) result }
{
    let sides = Sides { pw, ph, w, h };
    let shears = Shears {
        sides,
        shear,
        shear_x,
    };
    let r = Rect { x0, y0, x1, y1 };
    match layout::calls::rect_to_page(&shears, r) {
        Ok(p) => RectToPageAnswer {
            number: 0,
            x0: p.x0,
            y0: p.y0,
            x1: p.x1,
            y1: p.y1,
        },
        Err(question) => RectToPageAnswer {
            number: question.number(),
            x0: 0,
            y0: 0,
            x1: 0,
            y1: 0,
        },
    }
}
