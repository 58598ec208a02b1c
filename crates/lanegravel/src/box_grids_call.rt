// Grids of boxes and the reading order of each set (crate `grids`).
ghost use Rattle.grids.specs.Call.{Grids};

#[unsafe(no_mangle)]
pub extern "C" fn lanegravel_box_grids(
    xheight: f64,
    p: params::settings::RulingsParams,
    rects: &[u32],
    members: &mut [u32],
    ends: &mut [u32],
    reading: &mut [u32],
    numbers: &mut [u32],
    parents: &mut [u32],
    work: &mut [u32],
    keys: &mut [u64],
) -> grids::Answer
    ensures { Grids (record { xheight = xheight; settings = p; rects = rects.now })
        (record {
          members = members.old;
          ends = ends.old;
          reading = reading.old;
          numbers = numbers.old;
          parents = parents.old;
          work = work.old;
          keys = keys.old;
        })
        (record {
          members = members.new;
          ends = ends.new;
          reading = reading.new;
          numbers = numbers.new;
          parents = parents.new;
          work = work.new;
          keys = keys.new;
        }) result }
{
    grids::box_grids(
        xheight, p, rects, members, ends, reading, numbers, parents, work, keys,
    )
}
