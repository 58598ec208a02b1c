// Rule pieces to rulings (crate `segments`).
ghost use Rattle.segments.specs.Call.{Segments};

#[unsafe(no_mangle)]
pub extern "C" fn lanegravel_segments(
    raster: &[u8],
    w: usize,
    h: usize,
    xheight: f64,
    pieces: &[u32],
    p: params::settings::RulingsParams,
    rects: &mut [u32],
    directions: &mut [u32],
    contrasts: &mut [f64],
    members: &mut [u32],
    ends: &mut [u32],
    parents: &mut [u32],
    listed: &mut [u32],
    listed_ends: &mut [u32],
    work: &mut [u32],
    keys: &mut [u64],
) -> segments::segments::Answer
    ensures { Segments (record {
      raster = raster.now;
      w = w;
      h = h;
      xheight = xheight;
      settings = p;
      pieces = pieces.now;
    })
        (record {
          rects = rects.old;
          directions = directions.old;
          contrasts = contrasts.old;
          piece_members = members.old;
          piece_ends = ends.old;
          parents = parents.old;
          listed = listed.old;
          listed_ends = listed_ends.old;
          work = work.old;
          keys = keys.old;
        })
        (record {
          rects = rects.new;
          directions = directions.new;
          contrasts = contrasts.new;
          piece_members = members.new;
          piece_ends = ends.new;
          parents = parents.new;
          listed = listed.new;
          listed_ends = listed_ends.new;
          work = work.new;
          keys = keys.new;
        }) result }
{
    segments::segments::segments(
        raster,
        w,
        h,
        xheight,
        pieces,
        p,
        rects,
        directions,
        contrasts,
        members,
        ends,
        parents,
        listed,
        listed_ends,
        work,
        keys,
    )
}
