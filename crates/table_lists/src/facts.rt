// Which sets are tables, what is found of each, and the free list.
ghost use Rattle.std.specs.Prelude.{◌≡◌, ◌*◌, ◌<◌, ◌≤◌, length, take};
ghost use Rattle.listings.specs.Listed.{set_of};
ghost use Rattle.rects.specs.Around.{around};
ghost use Rattle.meeting.specs.Segments.{ruling};
ghost use Rattle.table_lists.specs.Answers.{places_of};
ghost use Rattle.meeting.specs.Steps.{IndexesBelow};
ghost use Rattle.table_lists.specs.Steps.{SetsIn, Numbers, Rooms, Chose, Bounded, Measured};

use junctions::ends;
use listings::listed::Sets;
use meeting::segment::Rulings;
use shapes::limits::Limits;
use shapes::shape;

// How many tables there are, and how many free rulings.
#[derive(Clone, Copy)]
pub struct Found {
    pub tables: usize,
    pub free: usize,
}

// Goes through the sets: a table's number, rows and columns are written, any other set joins the free list.
pub fn choose(
    rulings: &Rulings,
    limits: Limits,
    sets: &Sets,
    keys: &mut [u64],
    order: &mut [u32],
    work: &mut [u32],
    numbers: &mut [u32],
    rows: &mut [u32],
    columns: &mut [u32],
    free: &mut [u32],
) -> Found
    requires given { SetsIn (length rulings.now.chosen) (set_of sets.now) sets.now.count }
    requires rooms { Rooms (length rulings.now.chosen) (length keys.old) (length order.old) (length work.old)
        (length numbers.old) (length rows.old) (length columns.old) (length free.old) }
    ensures { Chose limits (ruling rulings.now)
        (set_of sets.now) sets.now.count
        numbers.old rows.old columns.old free.old
        numbers.new rows.new columns.new free.new result.tables result.free }
{
    // Opened for the proof: at most 4,096 are chosen.
    let _ = &rulings.chosen;
    // The number of tables steps by hand, since only what is listed counts.
    let mut tables = 0;
    let mut at = 0;
    for k in 0..sets.count {
        let set = sets.at(k);
        let found = shape::shape_of(rulings, set, limits, keys, order, work);
        if found.table {
            numbers[tables] = k as u32;
            rows[tables] = (found.row_lines - 1) as u32;
            columns[tables] = (found.column_lines - 1) as u32;
            tables += 1;
        } else {
            at = lists::append(set, free, at);
        }
    }
    Found { tables, free: at }
}

// The smallest rectangle around the rulings of a set: `rects::bounding` of their places, which stand in no list. A closure for the rectangle
// at a place would be no plainer: both contracts speak of a list of rectangles and places in it.
fn around_set(rulings: &Rulings, set: &[u32]) -> rects::Rect
    requires { IndexesBelow (length rulings.now.chosen) set.now × (0 < length set.now) }
    ensures { result ≡ around rulings.now.rects (places_of rulings.now.chosen set.now) }
{
    let mut r = rulings.rect_at(set[0] as usize);
    for i in &set[1..] {
        r = rects::union_rect(r, rulings.rect_at(*i as usize));
    }
    r
}

// Writes the smallest rectangle around each table. How many tables there are stands beside their numbers, since that list may be longer and
// the caller can't hand its front part: where other lists are lent too, the proof no longer knows what such a part holds.
pub fn bound(rulings: &Rulings, sets: &Sets, numbers: &[u32], tables: usize, out: &mut [u32])
    requires { SetsIn (length rulings.now.chosen) (set_of sets.now) sets.now.count
        × Numbers numbers.now tables sets.now.count × (4 * tables ≤ length out.old) }
    ensures { Bounded rulings.now.rects rulings.now.chosen
        (set_of sets.now) (take tables numbers.now) out.old out.new }
{
    for t in 0..tables {
        let set = sets.at(numbers[t] as usize);
        rects::put_rect(out, t, around_set(rulings, set));
    }
}

// Writes how many rulings each table has, and their joined share. How many tables there are is given as in `bound`. The last three lists are
// lent to sort in, with a place a ruling each.
pub fn measure(
    rulings: &Rulings,
    join: u32,
    sets: &Sets,
    numbers: &[u32],
    tables: usize,
    sizes: &mut [u32],
    shares: &mut [f64],
    order: &mut [u32],
    work: &mut [u32],
    keys: &mut [u64],
)
    requires given { SetsIn (length rulings.now.chosen) (set_of sets.now) sets.now.count × Numbers numbers.now tables sets.now.count }
    requires tables_in_bounds { (tables ≤ length sizes.old) × (tables ≤ length shares.old) }
    requires chosen_in_bounds { (length rulings.now.chosen ≤ length order.old) × (length rulings.now.chosen ≤ length work.old) × (length rulings.now.chosen ≤ length keys.old) }
    ensures { Measured join (ruling rulings.now)
        (set_of sets.now) (take tables numbers.now)
        sizes.old shares.old sizes.new shares.new }
{
    // Opened for the proof: at most 4,096 are chosen.
    let _ = &rulings.chosen;
    for t in 0..tables {
        let set = sets.at(numbers[t] as usize);
        sizes[t] = set.len() as u32;
        shares[t] = ends::share(rulings, set, join, order, work, keys);
    }
}
