// The darkest pixel across a ruling, for each place along it.
ghost use Rattle.std.specs.Prelude.{◌≡◌, ◌≤◌};
ghost use Rattle.math.specs.Sum.{total};
ghost use Rattle.rects.specs.Steps.{Inside};
ghost use Rattle.paper.specs.Steps.{OnPicture};
ghost use Rattle.contrast.specs.Steps.{rows_darkest, RowsInside, places_along};
ghost use Rattle.paper.specs.Pixels.{darkest, darkest_of};

use paper::Raster;
use rects::Rect;

// The darkest of some pixels.
fn darkest_of(row: &[u8]) -> u8
    ensures { result ≡ darkest_of row.now }
{
    let mut least = 255u8;
    for p in row {
        least = least.min(*p);
    }
    least
}

// The sum over n rows, of the darkest of some columns. They are given by numbers, as in `columns`.
fn sum_of_rows(raster: &Raster, start: usize, n: usize, columns: usize) -> u32
    requires { (n ≤ 8192) × RowsInside raster.now.pixels start columns n raster.now.w }
    ensures { result ≡ total (rows_darkest raster.now.pixels start n columns raster.now.w) }
{
    let pixels = raster.pixels;
    let w = raster.w;
    let mut sum = 0;
    for i in 0..n {
        let at = start + i * w;
        sum += u32::from(darkest_of(&pixels[at..at + columns]));
    }
    sum
}

// The sum of the darkest pixels. `horizontal` is a bool as in `contrast`, here and in `along`.
pub fn darkest_sum(raster: &Raster, r: Rect, horizontal: bool) -> u32
    requires { OnPicture raster.now r }
    ensures { result ≡ total (darkest raster.now.pixels raster.now.w r horizontal) }
{
    let start = r.y0 as usize * raster.w + r.x0 as usize;
    let columns = r.width() as usize;
    let rows = r.height() as usize;
    if horizontal {
        return crate::columns::sum_of_columns(raster, start, columns, rows);
    }
    sum_of_rows(raster, start, rows, columns)
}

// How many places there are along a ruling.
pub fn along(r: Rect, horizontal: bool) -> u32
    requires { Inside 8192 8192 r }
    ensures { result ≡ places_along r horizontal }
{
    if horizontal {
        return r.width();
    }
    r.height()
}
