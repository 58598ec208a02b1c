// One form from page to findings: a table of two rows, two answer boxes, the lower one ticked, and a fold. The scan
// is askew: its left twelve columns lie one row too high, which shows where the fold breaks.
//
// Worked by hand. The x-height is 1, so that each setting is its limit, and levelling moves the left part one row
// down.
// - Rulings: the seven pieces of the levelled picture are six, since the first two lie one place apart and the gap
//   limit is 1. Five are dark and printed, the last is the fold.
// - Table: horizontals on rows 1, 5 and 9 and verticals in columns 0 and 10, so 2 rows, 1 column, 5 rulings, and all
//   of its 10 ends are joined: share 1. Llrs 0.5 * 2 cells and 2 * (1 - 0.5), prior 1: log odds 1 + (1 + 1) = 3. On
//   the page it lies one row higher, from 0, 0 to 10, 8.
// - Grid: two boxes 6 wide, with whole edges: mean edge 1. Of 4 by 4 inner places the lower one has 4 inked, a share
//   of 0.25, which is at least 0.2: ticked. Llr 0.5 * 2, prior 0.5: log odds 0.5 + (1 + 0) = 1.5. From 14, 0 to
//   19, 13.
// - Fold: row 16, grey 235 on white, contrast 20, which is below 50. It is 20 long at 10 dots an inch: 2 inches. Llr
//   (50 - 20) / 10: log odds 3. On the page it lies from 0, 15 to 19, 16.
// The findings stand by their first row, then by their first column.
#![tactic(auto)]

use std::io;

mod form;
mod settings;
mod shown;

fn main(rt: HostRuntime) -> io::Result<()> {
    form::run(&rt)
}
