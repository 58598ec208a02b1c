// Levelling (crate `layout`); pw and ph are the page's sides, w and h the levelled picture's.
ghost use Rattle.level_gray.specs.Call.{LevelGray};

use layout::sides::Sides;
use layout::tables::Shears;

#[unsafe(no_mangle)]
pub extern "C" fn lanegravel_level_gray(
    pw: usize,
    ph: usize,
    w: usize,
    h: usize,
    gray: &[u8],
    shear: &[i32],
    shear_x: &[i32],
    out: &mut [u8],
) -> u32
    ensures { LevelGray (record { pw = pw; ph = ph; w = w; h = h }) gray.now shear.now shear_x.now
        out.old out.new result }
{
    let sides = Sides { pw, ph, w, h };
    let shears = Shears {
        sides,
        shear,
        shear_x,
    };
    questions::number(level_gray::level_gray(&shears, gray, out))
}
