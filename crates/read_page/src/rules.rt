// The levelled raster, the rulings on it, which of them are printed, and the tables among those.
ghost use Rattle.std.specs.Prelude.{◌*◌, ◌≤◌, length, take};
ghost use Rattle.params.specs.Steps.{SettingsPassed};
ghost use Rattle.segments.specs.Call.{sets_of};
ghost use Rattle.segments.specs.Steps.{Ready, Made};
ghost use Rattle.printed_rulings.specs.Steps.{SplitByContrast, RoomForPlaces};
ghost use Rattle.meeting.specs.Steps.{Given};
ghost use Rattle.shapes.specs.Limits.{table_limits_of};
ghost use Rattle.tables.specs.Steps.{Filled, Roomy};
ghost use Rattle.page.specs.Lent.{rules_of};
ghost use Rattle.page.specs.Steps.{SameRules};
ghost use Rattle.read_page.specs.Steps.{PartsLong, RulesReady, RulesDone};

use layout::tables::Shears;
use meeting::segment::Rulings;
use page::given::Page;
use page::lent::LentRules;
use paper::Raster;
use params::settings::RulingsParams;
use printed_rulings::Parted;
use table_questions::lent::Lists;

// How many rulings there are, printed and faint ones; tables, sets of printed rulings, and entries of the free list.
#[derive(Clone, Copy)]
pub struct Counts {
    pub rulings: usize,
    pub printed: usize,
    pub faint: usize,
    pub tables: usize,
    pub printed_sets: usize,
    pub free: usize,
}

// The rulings and their sets of pieces. The lists come one by one, here and below, since a struct of lent lists is made from parameters alone.
fn connect(
    page: &Page,
    levelled: &[u8],
    rects: &mut [u32],
    directions: &mut [u32],
    contrasts: &mut [f64],
    members: &mut [u32],
    ends: &mut [u32],
    parents: &mut [u32],
    listed: &mut [u32],
    listed_ends: &mut [u32],
    order: &mut [u32],
    keys: &mut [u64],
) -> usize
    requires { SettingsPassed page.now.settings page.now.xheight
        × Ready (record { pixels = levelled.now; w = page.now.sides.w; h = page.now.sides.h }) page.now.pieces
        (record {
          rects = rects.old;
          directions = directions.old;
          contrasts = contrasts.old;
          piece_members = members.old;
          piece_ends = ends.old;
          parents = parents.old;
          listed = listed.old;
          listed_ends = listed_ends.old;
          work = order.old;
          keys = keys.old;
        }) }
    ensures { Made (record { pixels = levelled.now; w = page.now.sides.w; h = page.now.sides.h }) page.now.pieces
        (sets_of page.now.xheight page.now.pieces page.now.settings)
        (record {
          rects = rects.old;
          directions = directions.old;
          contrasts = contrasts.old;
          piece_members = members.old;
          piece_ends = ends.old;
          parents = parents.old;
          listed = listed.old;
          listed_ends = listed_ends.old;
          work = order.old;
          keys = keys.old;
        })
        (record {
          rects = rects.new;
          directions = directions.new;
          contrasts = contrasts.new;
          piece_members = members.new;
          piece_ends = ends.new;
          parents = parents.new;
          listed = listed.new;
          listed_ends = listed_ends.new;
          work = order.new;
          keys = keys.new;
        }) result }
{
    let across = params::pixels::limit_u32(page.settings.merge_across_xh, page.xheight);
    let gap = params::pixels::limit_u32(page.settings.merge_gap_xh, page.xheight);
    let raster = Raster {
        pixels: levelled,
        w: page.sides.w,
        h: page.sides.h,
    };
    let mut lists = ruling_questions::lent::Lists {
        rects,
        directions,
        contrasts,
        piece_members: members,
        piece_ends: ends,
        parents,
        listed,
        listed_ends,
        work: order,
        keys,
    };
    segments::segments::rulings(&raster, page.pieces, across, gap, &mut lists)
}

// The printed and the faint of the first n rulings. n stands beside the list, here and below: of a front part that the caller hands the proof
// wouldn't know the content.
fn part(
    p: RulingsParams,
    n: usize,
    contrasts: &[f64],
    printed: &mut [u32],
    faint: &mut [u32],
) -> Parted
    requires { (n ≤ length contrasts.now) × RoomForPlaces (take n contrasts.now) printed.old faint.old }
    ensures { SplitByContrast p (take n contrasts.now) printed.old faint.old printed.new
        faint.new result.printed result.faint }
{
    printed_rulings::split(p, &contrasts[..n], printed, faint)
}

// The tables among the first k places of printed rulings, of n rulings.
fn find_tables(
    p: RulingsParams,
    xheight: f64,
    n: usize,
    k: usize,
    rects: &[u32],
    directions: &[u32],
    printed: &[u32],
    members: &mut [u32],
    ends: &mut [u32],
    numbers: &mut [u32],
    bounds: &mut [u32],
    rows: &mut [u32],
    columns: &mut [u32],
    rulings: &mut [u32],
    shares: &mut [f64],
    free: &mut [u32],
    parents: &mut [u32],
    work: &mut [u32],
    keys: &mut [u64],
) -> tables::inner::Counts
    requires { SettingsPassed p xheight × PartsLong n k rects.now directions.now printed.now
        × Given (take (4 * n) rects.now) (take n directions.now) (take k printed.now) × Roomy k
        (record {
          members = members.old;
          ends = ends.old;
          numbers = numbers.old;
          bounds = bounds.old;
          rows = rows.old;
          columns = columns.old;
          rulings = rulings.old;
          shares = shares.old;
          free = free.old;
          parents = parents.old;
          work = work.old;
          keys = keys.old;
        }) }
    ensures { Filled (take (4 * n) rects.now) (take n directions.now) (take k printed.now) (table_limits_of p xheight)
        (record {
          members = members.old;
          ends = ends.old;
          numbers = numbers.old;
          bounds = bounds.old;
          rows = rows.old;
          columns = columns.old;
          rulings = rulings.old;
          shares = shares.old;
          free = free.old;
          parents = parents.old;
          work = work.old;
          keys = keys.old;
        })
        (record {
          members = members.new;
          ends = ends.new;
          numbers = numbers.new;
          bounds = bounds.new;
          rows = rows.new;
          columns = columns.new;
          rulings = rulings.new;
          shares = shares.new;
          free = free.new;
          parents = parents.new;
          work = work.new;
          keys = keys.new;
        })
        result.sets result.tables result.free }
{
    let limits = shapes::limits::limits_of(p, xheight);
    let chosen = Rulings {
        rects: &rects[..4 * n],
        directions: &directions[..n],
        chosen: &printed[..k],
    };
    let mut lists = Lists {
        members,
        ends,
        numbers,
        bounds,
        rows,
        columns,
        rulings,
        shares,
        free,
        parents,
        work,
        keys,
    };
    tables::inner::find(&chosen, limits, &mut lists)
}

pub fn read(page: &Page, l: &mut LentRules) -> Counts
    requires { RulesReady page.now (rules_of l.old) }
    ensures done { RulesDone page.now (rules_of l.old) (rules_of l.new) result }
    ensures same { SameRules l.old l.new }
{
    let shears = Shears {
        sides: page.sides,
        shear: page.shear,
        shear_x: page.shear_x,
    };
    levelling::level(&shears, page.gray, l.levelled);
    let levelled = &mut *l.levelled;
    let rulings = connect(
        page,
        levelled,
        l.rects,
        l.directions,
        l.contrasts,
        l.piece_members,
        l.piece_ends,
        l.parents,
        l.listed,
        l.listed_ends,
        l.order,
        l.keys,
    );
    let contrasts = &mut *l.contrasts;
    let parted = part(page.settings, rulings, contrasts, l.printed, l.faint);
    let rects = &mut *l.rects;
    let directions = &mut *l.directions;
    let printed = &mut *l.printed;
    let found = find_tables(
        page.settings,
        page.xheight,
        rulings,
        parted.printed,
        rects,
        directions,
        printed,
        l.printed_members,
        l.printed_ends,
        l.numbers,
        l.bounds,
        l.rows,
        l.columns,
        l.rulings,
        l.shares,
        l.free,
        l.parents,
        l.order,
        l.keys,
    );
    Counts {
        rulings,
        printed: parted.printed,
        faint: parted.faint,
        tables: found.tables,
        printed_sets: found.sets,
        free: found.free,
    }
}
