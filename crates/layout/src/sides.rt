// The sides of a page, and of the picture that it is levelled into.
ghost use Rattle.std.specs.Prelude.{◌≡◌, ◌≤◌};
ghost use Rattle.layout.specs.Sides.{side_fits, levelled_sides_fit, sides_fit, raster_fits};

// The page is pw by ph, and the levelled picture w by h.
#[derive(Clone, Copy)]
pub struct Sides {
    pub pw: usize,
    pub ph: usize,
    pub w: usize,
    pub h: usize,
}

fn side_fits(n: usize) -> bool
    ensures { result ≡ side_fits n }
{
    (1 <= n) & (n <= 8192)
}

// Question 1 of the levelled sides alone.
pub fn levelled_sides_fit(w: usize, h: usize) -> bool
    ensures { result ≡ levelled_sides_fit w h }
{
    side_fits(w) & side_fits(h)
}

// Question 1.
#[tactic(auto, unfolding(crate::specs::Sides::sides_fit))]
pub fn sides_fit(sides: Sides) -> bool
    ensures { result ≡ sides_fit sides }
{
    let page = levelled_sides_fit(sides.pw, sides.ph);
    let levelled = levelled_sides_fit(sides.w, sides.h);
    (page & levelled) & ((sides.pw <= sides.w) & (sides.ph <= sides.h))
}

// One byte for each place.
#[tactic(auto, unfolding(crate::specs::Sides::raster_fits))]
pub fn raster_fits(w: usize, h: usize, n: usize) -> bool
    requires { (w ≤ 8192) × (h ≤ 8192) }
    ensures { result ≡ raster_fits w h n }
{
    n == w * h
}
