// Bands of rows.
ghost use Rattle.std.specs.Prelude.{◌≤◌, ◌<◌};

// A band: the rows from one up to another, without it.
#[derive(Clone, Copy)]
pub struct Rows {
    pub from: usize,
    pub to: usize,
}

// Where a band of so many rows ends that begins at row y, in a raster of h rows.
pub fn band_end(y: usize, h: usize, rows: usize) -> usize
    requires { (y < h) × (1 ≤ rows) }
    ensures { (y < result) × (result ≤ h) }
{
    h.min(y.saturating_add(rows))
}
