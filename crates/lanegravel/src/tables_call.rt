// Tables and free rulings (crate `tables`).
ghost use Rattle.tables.specs.Call.{Tables};

#[unsafe(no_mangle)]
pub extern "C" fn lanegravel_tables(
    xheight: f64,
    p: params::settings::RulingsParams,
    rects: &[u32],
    directions: &[u32],
    members: &mut [u32],
    ends: &mut [u32],
    numbers: &mut [u32],
    bounds: &mut [u32],
    rows: &mut [u32],
    columns: &mut [u32],
    rulings: &mut [u32],
    shares: &mut [f64],
    free: &mut [u32],
    chosen: &mut [u32],
    parents: &mut [u32],
    work: &mut [u32],
    keys: &mut [u64],
) -> tables::Answer
    ensures { Tables (record {
      xheight = xheight;
      settings = p;
      rects = rects.now;
      directions = directions.now;
    })
        (record {
          printed_members = members.old;
          printed_ends = ends.old;
          numbers = numbers.old;
          bounds = bounds.old;
          rows = rows.old;
          columns = columns.old;
          rulings = rulings.old;
          shares = shares.old;
          free = free.old;
          chosen = chosen.old;
          parents = parents.old;
          work = work.old;
          keys = keys.old;
        })
        (record {
          printed_members = members.new;
          printed_ends = ends.new;
          numbers = numbers.new;
          bounds = bounds.new;
          rows = rows.new;
          columns = columns.new;
          rulings = rulings.new;
          shares = shares.new;
          free = free.new;
          chosen = chosen.new;
          parents = parents.new;
          work = work.new;
          keys = keys.new;
        }) result }
{
    tables::tables(
        xheight, p, rects, directions, members, ends, numbers, bounds, rows, columns, rulings,
        shares, free, chosen, parents, work, keys,
    )
}
