// The tests on two sides.
ghost use Rattle.std.specs.Prelude.{◌≡◌, ℕ, ◌<◌, ◌≤◌, true};
ghost use Rattle.std.specs.Float.Ieee.{lt};
ghost use Rattle.math.specs.Sum.{whole};
ghost use Rattle.glyph_tests.specs.Tests.{size_missed, aspect_missed};

pub fn size_missed(width: u32, height: u32, least: f64, most: f64) -> bool
    ensures { result ≡ size_missed width height least most }
{
    let w = f64::from(width);
    let h = f64::from(height);
    if w < least {
        return true;
    }
    if h < least {
        return true;
    }
    if w > most {
        return true;
    }
    h > most
}

pub fn aspect_missed(width: u32, height: u32, tolerance: f64) -> bool
    ensures { result ≡ aspect_missed width height tolerance }
{
    let w = f64::from(width);
    let h = f64::from(height);
    select::abs(w - h) > tolerance * select::max(w, h)
}

// Every side below this is below x: the whole part of x, where that is a number of 64 bits.
pub fn whole_part(x: f64) -> u64
    ensures { (n : ℕ) → n ≤ 8192 → n < result → lt (whole n) x ≡ true }
{
    if -1.0 < x {
        if x < 18446744073709551616.0 {
            return std::num::truncating_f64_to_u64(x);
        }
    }
    0
}
