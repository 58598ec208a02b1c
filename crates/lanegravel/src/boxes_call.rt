// Boxes among glyph boxes (crate `boxes`).
ghost use Rattle.boxes.specs.Call.{Boxes};

#[unsafe(no_mangle)]
pub extern "C" fn lanegravel_boxes(
    w: usize,
    h: usize,
    dpi: u16,
    xheight: f64,
    ink: &[u8],
    glyphs: &[u32],
    p: params::settings::RulingsParams,
    rects: &mut [u32],
    marks: &mut [u32],
    coverages: &mut [f64],
) -> boxes::Answer
    ensures { Boxes (record {
      w = w;
      h = h;
      dpi = dpi;
      xheight = xheight;
      settings = p;
      ink = ink.now;
      glyphs = glyphs.now;
    })
        (record { rects = rects.old; marks = marks.old; coverages = coverages.old })
        (record { rects = rects.new; marks = marks.new; coverages = coverages.new }) result }
{
    boxes::boxes(w, h, dpi, xheight, ink, glyphs, p, rects, marks, coverages)
}
