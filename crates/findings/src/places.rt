// What the rulings or the boxes at some places have in common: how many have a number, and the longest ruling. Directions are 0 and 1, and
// marks are numbers, as C's lists hold them.
ghost use Rattle.std.specs.Prelude.{◌≡◌, map, ◌≤◌, eqb, length, get_or};
ghost use Rattle.lists.specs.Lists.{keep};
ghost use Rattle.rects.specs.Steps.{Inside};
ghost use Rattle.std.specs.Float.{binary64};
ghost use Rattle.std.specs.Float.Ieee.{div};
ghost use Rattle.math.specs.Sum.{whole};
ghost use Rattle.math.specs.Steps.{PlacesIn};
ghost use Rattle.findings.specs.Made.{length_of, length_at, greatest_of, mean_at};
ghost use Rattle.findings.specs.Steps.{PlacesGiven, NumbersGiven};

use rects::Rect;

// How many of the entries at some places are the given number.
pub fn count_equal(numbers: &[u32], places: &[u32], number: u32) -> usize
    requires { NumbersGiven numbers.now places.now }
    ensures { result ≡ length (keep (λ k. eqb (get_or numbers.now k 0) number) places.now) }
{
    places
        .iter()
        .filter(|place| numbers[**place as usize] == number)
        .count()
}

// A ruling's length runs along it. The direction is a `bool`, as in the Rust: it is what a test of a number in the list finds.
pub fn length_of(r: Rect, horizontal: bool) -> u32
    requires { Inside 8192 8192 r }
    ensures { result ≡ length_of r horizontal }
{
    if horizontal { r.width() } else { r.height() }
}

// The longest of the rulings at some places.
pub fn longest(rects: &[u32], directions: &[u32], places: &[u32]) -> u32
    requires { PlacesGiven 8192 8192 rects.now directions.now places.now }
    ensures { result ≡ greatest_of (map (length_at rects.now directions.now) places.now) }
{
    let mut longest = 0;
    for place in places {
        let place = *place as usize;
        let length = length_of(rects::rect_at(rects, place), directions[place] == 0);
        longest = longest.max(length);
    }
    longest
}

fn over(sum: f64, n: usize) -> f64
    requires { n ≤ 16384 }
    ensures { result ≡ div binary64 sum (whole n) }
{
    // `as`, since no `From` makes a float of a usize.
    sum / (n as f64)
}

// The mean of the values at some places.
pub fn mean(values: &[f64], places: &[u32]) -> f64
    requires { PlacesIn values.now places.now × (length places.now ≤ 16384) }
    ensures { result ≡ mean_at values.now places.now }
{
    let n = places.len();
    over(sums::sum_at::pairwise_sum_at(values, places), n)
}
