// A levelled place back to the page (crate `layout`); pw and ph are the page's sides, w and h the
// levelled picture's.
ghost use Rattle.answers.specs.Mapped.{PlaceMapped};

use answers::to_page::ToPageAnswer;

#[unsafe(no_mangle)]
pub extern "C" fn lanegravel_to_page(
    pw: usize,
    ph: usize,
    w: usize,
    h: usize,
    shear: &[i32],
    shear_x: &[i32],
    x: u32,
    y: u32,
) -> ToPageAnswer
    ensures { PlaceMapped (record { pw = pw; ph = ph; w = w; h = h }) shear.now shear_x.now (record { 0 = x; 1 = y }) result }
{
    answers::to_page::to_page(pw, ph, w, h, shear, shear_x, x, y)
}
