// The inverse of levelling: the page as scanned. It goes into the page raster by bands of rows; in a band, by runs of columns that
// share a shear, since a run of a page row is a run of a levelled row; and where runs are too short for that, column by column.
#![tactic(auto)]

ghost use Rattle.std.specs.Prelude.{◌≡◌, ◌+◌, ◌*◌, ◌≤◌, ◌<◌};
ghost use Rattle.layout.specs.Tables.{entry};
ghost use Rattle.layout.specs.Steps.{shears_of};
ghost use Rattle.layout.specs.Level.{unlevelled};
ghost use Rattle.shear_runs.specs.Steps.{Run, Together, Frame, All};
ghost use Rattle.unlevelling.specs.Steps.{Archived, PageLong, BackArea, PageColumns};

use layout::sides::Sides;
use layout::tables::{self, Shears};
use shear_runs::bands::Rows;
use shear_runs::columns::Part;
use shear_runs::{bands, columns, raster};

// Where page pixel (x, y) stands in the levelled raster, `down` rows below.
#[tactic(auto, using(crate::proofs::Places::small))]
fn place_of(sides: Sides, shear_x: &[i32], x: usize, y: usize, down: usize) -> usize
    requires { Frame sides shear_x.now × ((x < sides.pw) × (y + down < sides.h)) }
    ensures { result ≡ (y + down) * sides.w + (x + entry shear_x.now (y + down)) }
{
    let row = y + down;
    let column = x + tables::entry_at(shear_x, row);
    row * sides.w + column
}

// The columns of a part that share a shear, in a band: a run of each row. `Archived` and `PageLong` are facts of each step and
// no struct's, as `Ready` is in `levelling`.
fn unlevel_run(shears: &Shears, level: &[u8], out: &mut [u8], part: Part, rows: Rows)
    requires { Archived (shears_of shears.now) level.now × (PageLong shears.now.sides out.old × (Run shears.now.shear.now part.from part.to × (rows.to ≤ shears.now.sides.ph))) }
    ensures { BackArea (shears_of shears.now) level.now (PageColumns part.from part.to) rows.from rows.to out.old
        out.new }
{
    let sides = shears.sides;
    let shear_x = shears.shear_x;
    let down = shears.down(part.from);
    for y in rows.from..rows.to {
        let start = place_of(sides, shear_x, part.from, y, down);
        let end = start + (part.to - part.from);
        let row = y * sides.pw;
        raster::copy(&mut out[row + part.from..row + part.to], &level[start..end]);
    }
}

// Column x in a band, pixel by pixel.
fn unlevel_column(shears: &Shears, level: &[u8], out: &mut [u8], x: usize, rows: Rows)
    requires { Archived (shears_of shears.now) level.now × (PageLong shears.now.sides out.old × ((x < shears.now.sides.pw) × (rows.to ≤ shears.now.sides.ph))) }
    ensures { BackArea (shears_of shears.now) level.now (PageColumns x (x + 1)) rows.from rows.to out.old
        out.new }
{
    let sides = shears.sides;
    let shear_x = shears.shear_x;
    let down = shears.down(x);
    for y in rows.from..rows.to {
        out[y * sides.pw + x] = level[place_of(sides, shear_x, x, y, down)];
    }
}

// The columns of a part, each by itself, in a band.
fn unlevel_each(shears: &Shears, level: &[u8], out: &mut [u8], part: Part, rows: Rows)
    requires { Archived (shears_of shears.now) level.now × (PageLong shears.now.sides out.old × ((part.to ≤ shears.now.sides.pw) × (rows.to ≤ shears.now.sides.ph))) }
    ensures { BackArea (shears_of shears.now) level.now (PageColumns part.from part.to) rows.from rows.to out.old
        out.new }
{
    for x in part.from..part.to {
        unlevel_column(shears, level, out, x, rows);
    }
}

// The columns of one part, in a band.
fn unlevel_part(shears: &Shears, level: &[u8], out: &mut [u8], part: Part, rows: Rows)
    requires { Archived (shears_of shears.now) level.now × (PageLong shears.now.sides out.old × (Together shears.now.shear.now part.from part.to part.run × (rows.to ≤ shears.now.sides.ph))) }
    ensures { BackArea (shears_of shears.now) level.now (PageColumns part.from part.to) rows.from rows.to
        out.old out.new }
{
    if part.run {
        return unlevel_run(shears, level, out, part, rows);
    }
    unlevel_each(shears, level, out, part, rows)
}

// A band. The walk is by hand, since a part begins where the last one ended, and only it knows where it ends.
fn unlevel_rows(shears: &Shears, level: &[u8], out: &mut [u8], rows: Rows)
    requires { Archived (shears_of shears.now) level.now × (PageLong shears.now.sides out.old × (rows.to ≤ shears.now.sides.ph)) }
    ensures { BackArea (shears_of shears.now) level.now All rows.from rows.to out.old out.new }
{
    let mut x = 0;
    while x < shears.shear.len() {
        let part = columns::part_at(shears.shear, x);
        unlevel_part(shears, level, out, part, rows);
        x = part.to;
    }
}

// The page, for sides, tables and rasters that pass their questions. Bands of 64 rows keep a part's rows in the cache.
// `step_by` would be no plainer, since a band needs its end too; nor would one function with `levelling::level`, since no step is the same.
pub fn unlevel(shears: &Shears, level: &[u8], out: &mut [u8])
    requires { Archived (shears_of shears.now) level.now × PageLong shears.now.sides out.old }
    ensures { out.new ≡ unlevelled shears.now.sides level.now shears.now.shear.now shears.now.shear_x.now }
{
    let ph = shears.sides.ph;
    let mut y = 0;
    while y < ph {
        let rows = Rows {
            from: y,
            to: bands::band_end(y, ph, 64),
        };
        unlevel_rows(shears, level, out, rows);
        y = rows.to;
    }
}
