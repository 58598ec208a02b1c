// Hollow squares with four straight edges among the glyph boxes of a page.
#![tactic(auto)]

ghost use Rattle.boxes.specs.Call.{Boxes};

mod guard;

use box_lists::lent::Lists;
use ink::Mask;
use params::settings::RulingsParams;

// C's struct: the number of the first missed question, 0 where the page is accepted, and the number of boxes.
#[repr(C)]
#[derive(Clone, Copy)]
pub struct Answer {
    pub number: u32,
    pub count: usize,
}

// Finds the boxes of a levelled page. A page that misses a question is refused with its number, and nothing is written.
pub fn boxes(
    w: usize,
    h: usize,
    dpi: u16,
    xheight: f64,
    ink: &[u8],
    glyphs: &[u32],
    p: RulingsParams,
    rects: &mut [u32],
    marks: &mut [u32],
    coverages: &mut [f64],
) -> Answer
    ensures { Boxes (record {
      w = w;
      h = h;
      dpi = dpi;
      xheight = xheight;
      settings = p;
      ink = ink.now;
      glyphs = glyphs.now;
    })
        (record { rects = rects.old; marks = marks.old; coverages = coverages.old })
        (record { rects = rects.new; marks = marks.new; coverages = coverages.new }) result }
{
    let mut lists = Lists {
        rects,
        marks,
        coverages,
    };
    if let Err(missed) = guard::missed(w, h, dpi, xheight, ink, glyphs, p, &lists) {
        return Answer {
            number: missed.number(),
            count: 0,
        };
    }
    let l = glyph_tests::limits::limits_of(dpi, xheight, p);
    let mask = Mask { bytes: ink, w };
    let count = box_lists::find(&mask, glyphs, l, &mut lists);
    Answer { number: 0, count }
}
