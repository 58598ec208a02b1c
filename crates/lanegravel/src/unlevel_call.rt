// The inverse of levelling (crate `unlevel`); pw and ph are the page's sides, w and h the levelled picture's.
ghost use Rattle.unlevel.specs.Call.{Unlevel};

use layout::sides::Sides;
use layout::tables::Shears;

#[unsafe(no_mangle)]
pub extern "C" fn lanegravel_unlevel(
    pw: usize,
    ph: usize,
    w: usize,
    h: usize,
    level: &[u8],
    shear: &[i32],
    shear_x: &[i32],
    out: &mut [u8],
) -> u32
    ensures { Unlevel (record { pw = pw; ph = ph; w = w; h = h }) level.now shear.now shear_x.now
        out.old out.new result }
{
    let sides = Sides { pw, ph, w, h };
    let shears = Shears {
        sides,
        shear,
        shear_x,
    };
    questions::number(unlevel::unlevel(&shears, level, out))
}
