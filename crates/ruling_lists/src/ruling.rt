// One ruling.
ghost use Rattle.std.specs.Prelude.{◌≡◌, ℕ, ◌<◌, length};
ghost use Rattle.lists.specs.Lists.{In};
ghost use Rattle.rects.specs.Rects.{count};
ghost use Rattle.ruling_lists.specs.Rulings.{direction_number};
ghost use Rattle.ruling_lists.specs.Steps.{Picture, RulingMade};

use paper::Raster;
use rects::Rect;

// `horizontal` is the direction of its pieces, whatever shape the joined rectangle has. A bool, as the Rust has it.
#[derive(Clone, Copy)]
pub struct Ruling {
    pub rect: Rect,
    pub horizontal: bool,
    pub contrast: f64,
}

impl Ruling {
    // 0 for horizontal and 1 for vertical: a number, since C's lists hold it.
    pub fn direction(self) -> u32
        ensures { result ≡ direction_number self.horizontal }
    {
        u32::from(!self.horizontal)
    }
}

// The ruling that a set of pieces makes.
pub fn ruling_of(raster: &Raster, pieces: &[u32], set: &[u32]) -> Ruling
    requires { Picture raster.now pieces.now × (0 < length set.now) × ((i : ℕ) → In set.now i → i < count pieces.now) }
    ensures { RulingMade raster.now pieces.now set.now result }
{
    let rect = rects::bounding(pieces, set);
    let first = rects::rect_at(pieces, set[0] as usize);
    let horizontal = pieces::touch::is_horizontal(first);
    let contrast = contrast::contrast(raster, rect, horizontal);
    Ruling {
        rect,
        horizontal,
        contrast,
    }
}
