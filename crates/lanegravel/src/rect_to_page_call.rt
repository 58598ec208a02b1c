// A levelled rectangle back to the page (crate `layout`); pw and ph are the page's sides, w and h the
// levelled picture's.
ghost use Rattle.answers.specs.Mapped.{AreaMapped};

use answers::rect_to_page::RectToPageAnswer;

#[unsafe(no_mangle)]
pub extern "C" fn lanegravel_rect_to_page(
    pw: usize,
    ph: usize,
    w: usize,
    h: usize,
    shear: &[i32],
    shear_x: &[i32],
    x0: u32,
    y0: u32,
    x1: u32,
    y1: u32,
) -> RectToPageAnswer
    ensures { AreaMapped (record { pw = pw; ph = ph; w = w; h = h }) shear.now shear_x.now
        (record { x0 = x0; y0 = y0; x1 = x1; y1 = y1 }) result }
{
    answers::rect_to_page::rect_to_page(pw, ph, w, h, shear, shear_x, x0, y0, x1, y1)
}
