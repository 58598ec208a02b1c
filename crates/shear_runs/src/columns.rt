// Columns that are levelled together.
ghost use Rattle.std.specs.Prelude.{◌≡◌, ◌<◌, length};
ghost use Rattle.layout.specs.Steps.{NotBelow};
ghost use Rattle.shear_runs.specs.Steps.{Run, Together};

use layout::tables::entry_at;

// Where the run of columns ends that have the entry of column `from`.
pub fn run_end(table: &[i32], from: usize) -> usize
    requires { (from < length table.now) × NotBelow table.now }
    ensures { Run table.now from result }
{
    let shear = entry_at(table, from);
    for i in from + 1..table.len() {
        if entry_at(table, i) != shear {
            return i;
        }
    }
    table.len()
}

// Columns that are levelled together: where they begin and end, and whether they are a run. An enum of the two would be no plainer: the
// loops over columns go on at the end of either.
#[derive(Clone, Copy)]
pub struct Part {
    pub from: usize,
    pub to: usize,
    pub run: bool,
}

// What is levelled together from column `from` on: a run of at least four columns, or else the next 64, each by itself.
pub fn part_at(table: &[i32], from: usize) -> Part
    requires { (from < length table.now) × NotBelow table.now }
    ensures { (result.from ≡ from) × Together table.now from result.to result.run }
{
    let to = run_end(table, from);
    if 4 <= to - from {
        return Part {
            from,
            to,
            run: true,
        };
    }
    if table.len() - from <= 64 {
        return Part {
            from,
            to: table.len(),
            run: false,
        };
    }
    Part {
        from,
        to: from + 64,
        run: false,
    }
}
