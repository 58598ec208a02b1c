// The boxes, and the grids among their sets.
ghost use Rattle.std.specs.Prelude.{◌*◌, ◌≤◌, length, take};
ghost use Rattle.params.specs.Steps.{SettingsPassed};
ghost use Rattle.params.specs.Limits.{align_limit};
ghost use Rattle.box_lists.specs.Steps.{Ready, Made};
ghost use Rattle.box_widths.specs.Steps.{PassedBoxes};
ghost use Rattle.grids.specs.Steps.{Filled, Roomy};
ghost use Rattle.page.specs.Lent.{marks_of};
ghost use Rattle.page.specs.Steps.{SameMarks};
ghost use Rattle.read_page.specs.Steps.{MarksReady, MarksDone};

use glyph_tests::limits::Limits;
use ink::Mask;
use page::given::Page;
use page::lent::LentMarks;
use params::settings::RulingsParams;

// How many boxes there are, grids, and sets of boxes.
#[derive(Clone, Copy)]
pub struct Counts {
    pub boxes: usize,
    pub grids: usize,
    pub box_sets: usize,
}

// The boxes among the glyph boxes, and how many there are. The lists come one by one, here and below, since a struct of lent lists is made
// from parameters alone.
fn find_boxes(
    mask: &Mask,
    glyphs: &[u32],
    l: Limits,
    rects: &mut [u32],
    marks: &mut [u32],
    coverages: &mut [f64],
) -> usize
    requires { Ready mask.now.bytes mask.now.w glyphs.now l
        (record { rects = rects.old; marks = marks.old; coverages = coverages.old }) }
    ensures { Made mask.now.bytes mask.now.w glyphs.now l
        (record { rects = rects.old; marks = marks.old; coverages = coverages.old })
        (record { rects = rects.new; marks = marks.new; coverages = coverages.new }) result }
{
    let mut lists = box_lists::lent::Lists {
        rects,
        marks,
        coverages,
    };
    box_lists::find(mask, glyphs, l, &mut lists)
}

// The grids among the first n boxes. n stands beside the list: of a front part that the caller hands the proof wouldn't know the content.
fn find_grids(
    p: RulingsParams,
    xheight: f64,
    n: usize,
    boxes: &[u32],
    members: &mut [u32],
    ends: &mut [u32],
    reading: &mut [u32],
    numbers: &mut [u32],
    parents: &mut [u32],
    work: &mut [u32],
    keys: &mut [u64],
) -> grids::inner::Counts
    requires { SettingsPassed p xheight × (4 * n ≤ length boxes.now) × PassedBoxes (take (4 * n) boxes.now) × Roomy n
        (record { members = members.old; ends = ends.old; reading = reading.old; numbers = numbers.old; parents = parents.old; work = work.old; keys = keys.old }) }
    ensures { Filled (take (4 * n) boxes.now) (align_limit p xheight) p.grid_min_boxes
        (record {
          members = members.old;
          ends = ends.old;
          reading = reading.old;
          numbers = numbers.old;
          parents = parents.old;
          work = work.old;
          keys = keys.old;
        })
        (record {
          members = members.new;
          ends = ends.new;
          reading = reading.new;
          numbers = numbers.new;
          parents = parents.new;
          work = work.new;
          keys = keys.new;
        })
        result.sets result.grids }
{
    let limit = grids::inner::limit(p, xheight);
    let mut lists = grids::lent::Lists {
        members,
        ends,
        reading,
        numbers,
        parents,
        work,
        keys,
    };
    grids::inner::find(&boxes[..4 * n], limit, p.grid_min_boxes, &mut lists)
}

pub fn read(page: &Page, l: &mut LentMarks) -> Counts
    requires { MarksReady page.now (marks_of l.old) }
    ensures done { MarksDone page.now (marks_of l.old) (marks_of l.new) result }
    ensures same { SameMarks l.old l.new }
{
    let limits = glyph_tests::limits::limits_of(page.dpi, page.xheight, page.settings);
    let mask = Mask {
        bytes: page.ink,
        w: page.sides.w,
    };
    let n = find_boxes(&mask, page.glyphs, limits, l.boxes, l.marks, l.coverages);
    let boxes = &mut *l.boxes;
    let found = find_grids(
        page.settings,
        page.xheight,
        n,
        boxes,
        l.members,
        l.ends,
        l.reading,
        l.numbers,
        l.parents,
        l.order,
        l.keys,
    );
    Counts {
        boxes: n,
        grids: found.grids,
        box_sets: found.sets,
    }
}
