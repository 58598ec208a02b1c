// Levelling: the page as its shear tables straighten it. It goes into the levelled raster by bands of rows; in a band, by runs of
// columns that share a shear, since a run of a levelled row is a run of a page row; and where runs are too short for that, pixel
// by pixel.
#![tactic(auto)]

ghost use Rattle.std.specs.Prelude.{◌≡◌, ◌+◌, ◌*◌, ◌≤◌, ◌<◌, length};
ghost use Rattle.shear_runs.specs.Steps.{Together, Frame, InRows, Columns, All};
ghost use Rattle.levelling.specs.Steps.{Painted, Sheets, Ready, Whitened, LevelledArea, Outside, Margins};
ghost use Rattle.layout.specs.Tables.{entry};
ghost use Rattle.layout.specs.Steps.{shears_of};
ghost use Rattle.layout.specs.Level.{column_shows, page_shows, levelled};

use layout::sides::Sides;
use layout::tables::{self, Shears};
use shear_runs::bands::Rows;
use shear_runs::columns::Part;
use shear_runs::{bands, columns, raster};

// Page columns from column `from` on, moved down by `shear`, as levelled row y shows them.
fn level_run(sides: Sides, gray: &[u8], out: &mut [u8], from: usize, shear: usize, y: usize)
    requires { (sides.pw ≤ 8192) × ((sides.ph ≤ 8192) × ((length gray.now ≡ sides.pw * sides.ph) × (from + length out.old ≤ sides.pw))) }
    ensures { Painted (column_shows sides gray.now shear) from y out.old out.new }
{
    if y < shear {
        return raster::whiten(out);
    }
    let row = y - shear;
    if sides.ph <= row {
        return raster::whiten(out);
    }
    let start = row * sides.pw + from;
    let end = start + out.len();
    raster::copy(out, &gray[start..end])
}

// Page column x, moved down by `down`, as levelled row y shows it.
fn level_pixel(sides: Sides, gray: &[u8], x: usize, down: usize, y: usize) -> u8
    requires { (sides.pw ≤ 8192) × ((sides.ph ≤ 8192) × ((length gray.now ≡ sides.pw * sides.ph) × (x < sides.pw))) }
    ensures { result ≡ column_shows sides gray.now down x y }
{
    if y < down {
        return 255;
    }
    let row = y - down;
    if sides.ph <= row {
        return 255;
    }
    gray[row * sides.pw + x]
}

// Page columns from column `from` on, each moved down by its own shear, as levelled row y shows them.
fn level_pixels(shears: &Shears, gray: &[u8], out: &mut [u8], from: usize, y: usize)
    requires { Sheets (shears_of shears.now) gray.now × (from + length out.old ≤ shears.now.sides.pw) }
    ensures { Painted (page_shows shears.now.sides gray.now shears.now.shear.now) from y out.old out.new }
{
    let sides = shears.sides;
    let table = shears.shear;
    for (k, pixel) in out.iter_mut().enumerate() {
        let x = from + k;
        *pixel = level_pixel(sides, gray, x, tables::entry_at(table, x), y);
    }
}

// Page columns that are levelled together, as levelled row y shows them. `run` is a bool, since it is what a test of the table found.
fn level_together(shears: &Shears, gray: &[u8], out: &mut [u8], from: usize, run: bool, y: usize)
    requires { Sheets (shears_of shears.now) gray.now × ((from + length out.old ≤ shears.now.sides.pw) × Together shears.now.shear.now from (from + length out.old) run) }
    ensures { Painted (page_shows shears.now.sides gray.now shears.now.shear.now) from y out.old out.new }
{
    if run {
        return level_run(shears.sides, gray, out, from, shears.down(from), y);
    }
    level_pixels(shears, gray, out, from, y)
}

// The columns of one part, in row y. `Ready` is a fact of each step and no struct's: the rasters come and go beside `Shears`, which has no
// model, since laws and code both speak of its fields.
fn level_part(shears: &Shears, gray: &[u8], out: &mut [u8], part: Part, y: usize)
    requires { Ready (shears_of shears.now) gray.now out.old × (Together shears.now.shear.now part.from part.to part.run × (y < shears.now.sides.h)) }
    ensures { LevelledArea (shears_of shears.now) gray.now (Columns (entry shears.now.shear_x.now) part.from part.to) y
        (y + 1) out.old out.new }
{
    let page = y * shears.sides.w + shears.across(y);
    level_together(
        shears,
        gray,
        &mut out[page + part.from..page + part.to],
        part.from,
        part.run,
        y,
    )
}

// The columns of one part, in a band.
fn level_columns(shears: &Shears, gray: &[u8], out: &mut [u8], part: Part, rows: Rows)
    requires { Ready (shears_of shears.now) gray.now out.old × (Together shears.now.shear.now part.from part.to part.run × (rows.to ≤ shears.now.sides.h)) }
    ensures { LevelledArea (shears_of shears.now) gray.now (Columns (entry shears.now.shear_x.now) part.from part.to) rows.from rows.to
        out.old out.new }
{
    for y in rows.from..rows.to {
        level_part(shears, gray, out, part, y);
    }
}

// White paper in row y, outside the columns from `from` up to `to`.
fn pad_row(w: usize, out: &mut [u8], y: usize, from: usize, to: usize)
    requires { ((from ≤ to) × (to ≤ w)) × ((y * w + w ≤ length out.old) × (length out.old ≤ 67108864)) }
    ensures { Whitened w (InRows y (y + 1) (Outside from to)) out.old out.new }
{
    let row = y * w;
    raster::whiten(&mut out[row..row + from]);
    raster::whiten(&mut out[row + to..row + w])
}

// White paper left and right of the page, in a band.
fn pad_rows(shears: &Shears, out: &mut [u8], rows: Rows)
    requires { Frame shears.now.sides shears.now.shear_x.now × ((length out.old ≡ shears.now.sides.w * shears.now.sides.h) × ((rows.from ≤ rows.to) × (rows.to ≤ shears.now.sides.h))) }
    ensures { Whitened shears.now.sides.w (InRows rows.from rows.to (Margins (shears_of shears.now))) out.old out.new }
{
    let sides = shears.sides;
    for y in rows.from..rows.to {
        let from = shears.across(y);
        pad_row(sides.w, out, y, from, from + sides.pw);
    }
}

// A band. The walk is by hand, since a part begins where the last one ended, and only it knows where it ends.
fn level_rows(shears: &Shears, gray: &[u8], out: &mut [u8], rows: Rows)
    requires { Ready (shears_of shears.now) gray.now out.old × ((rows.from ≤ rows.to) × (rows.to ≤ shears.now.sides.h)) }
    ensures { LevelledArea (shears_of shears.now) gray.now All rows.from rows.to out.old out.new }
{
    pad_rows(shears, out, rows);
    let mut x = 0;
    while x < shears.shear.len() {
        let part = columns::part_at(shears.shear, x);
        level_columns(shears, gray, out, part, rows);
        x = part.to;
    }
}

// The levelled raster, for sides, tables and rasters that pass their questions. Bands of 16 rows keep what is written in the cache.
// `step_by` would be no plainer, since a band needs its end too.
pub fn level(shears: &Shears, gray: &[u8], out: &mut [u8])
    requires { Ready (shears_of shears.now) gray.now out.old }
    ensures { out.new ≡ levelled shears.now.sides gray.now shears.now.shear.now shears.now.shear_x.now }
{
    let h = shears.sides.h;
    let mut y = 0;
    while y < h {
        let rows = Rows {
            from: y,
            to: bands::band_end(y, h, 16),
        };
        level_rows(shears, gray, out, rows);
        y = rows.to;
    }
}
