// The darkest pixel of each column of a horizontal ruling: row by row, as the raster lies in memory, 256 columns at a time.
// Pixels are given by their first place and a number, since a part of each row is read and no part of the raster as a whole.
ghost use Rattle.std.specs.Prelude.{◌≡◌, ℕ, ◌≤◌, ◌<◌, min, length, get_or};
ghost use Rattle.math.specs.Sum.{total};
ghost use Rattle.contrast.specs.Steps.{columns_darkest, Darkened, RowsInside};

use paper::Raster;

// Each entry becomes the pixel of a row, if that is darker.
fn darken(row: &[u8], least: &mut [u8])
    requires { length row.now ≤ length least.old }
    ensures { (i : ℕ) → i < length row.now → get_or least.new i 0 ≡ min (get_or least.old i 0) (get_or row.now i 0) }
{
    for i in 0..row.len() {
        least[i] = least[i].min(row[i]);
    }
}

// The same for some rows, from entries that are 255. That the rows lie inside is a fact of the three numbers: a struct of them would be made
// anew for each part.
fn darken_rows(raster: &Raster, start: usize, n: usize, rows: usize, least: &mut [u8])
    requires { (n ≤ length least.old) × RowsInside raster.now.pixels start n rows raster.now.w × Darkened raster.now.pixels start n 0 raster.now.w least.old }
    ensures { Darkened raster.now.pixels start n rows raster.now.w least.new }
{
    let pixels = raster.pixels;
    let w = raster.w;
    for k in 0..rows {
        let at = start + k * w;
        darken(&pixels[at..at + n], least);
    }
}

fn sum_of(values: &[u8]) -> u32
    requires { length values.now ≤ 256 }
    ensures { result ≡ total values.now }
{
    let mut sum = 0;
    for v in values {
        sum += u32::from(*v);
    }
    sum
}

// The sum over at most 256 columns.
fn sum_of_part(raster: &Raster, start: usize, n: usize, rows: usize) -> u32
    requires { (n ≤ 256) × RowsInside raster.now.pixels start n rows raster.now.w }
    ensures { result ≡ total (columns_darkest raster.now.pixels start n rows raster.now.w) }
{
    let mut least = [255u8; 256];
    darken_rows(raster, start, n, rows, &mut least);
    sum_of(&least[..n])
}

// The sum over n columns. A `while`: a turn goes on where its part ended, and `step_by` would say the part's size a second time.
pub fn sum_of_columns(raster: &Raster, start: usize, n: usize, rows: usize) -> u32
    requires { (n ≤ 8192) × (0 < rows) × RowsInside raster.now.pixels start n rows raster.now.w }
    ensures { result ≡ total (columns_darkest raster.now.pixels start n rows raster.now.w) }
{
    // Opened for the proof: a slice ends below 2^64.
    let _ = &raster.pixels;
    let mut sum = 0;
    let mut i = 0;
    while i < n {
        let part = (n - i).min(256);
        sum += sum_of_part(raster, start + i, part, rows);
        i += part;
    }
    sum
}
