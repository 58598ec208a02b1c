// The samples of the paper beside a ruling, as 256 counts.
ghost use Rattle.std.specs.Prelude.{◌≡◌, ◌*◌, length};
ghost use Rattle.paper.specs.Steps.{OnPicture, RoomFor, Clear, Counted, Sample, AreaInside, pixels_of};
ghost use Rattle.paper.specs.Pixels.{samples};

use crate::Raster;
use crate::areas::Area;
use rects::Rect;

// Counts some pixels.
fn count_row(row: &[u8], counts: &mut [u32])
    requires { RoomFor (length row.now) counts.old }
    ensures { Counted row.now counts.old counts.new }
{
    for p in row {
        counts[usize::from(*p)] += 1;
    }
}

impl Raster<'_> {
    // Counts the pixels of an area.
    fn count_area(&self, a: Area, counts: &mut [u32])
        requires { (length self.now.pixels ≡ self.now.w * self.now.h) × AreaInside self.now.w self.now.h a × RoomFor (a.rows * a.columns) counts.old }
        ensures { Counted (pixels_of self.now.pixels self.now.w a) counts.old counts.new }
    {
        let pixels = self.pixels;
        let w = self.w;
        for k in 0..a.rows {
            let at = (a.y + k) * w + a.x;
            count_row(&pixels[at..at + a.columns], counts);
        }
    }

    // Counts the samples of a ruling into counts that are all 0, and says how many there are. `horizontal` is a bool as in `beside`.
    pub fn sample(&self, r: Rect, horizontal: bool, counts: &mut [u32]) -> usize
        requires { OnPicture self.now r × Clear counts.old }
        ensures { Sample (samples self.now.pixels self.now.w self.now.h r horizontal) counts.new result }
    {
        let s = crate::areas::beside(self.w, self.h, r, horizontal);
        self.count_area(s.first, counts);
        self.count_area(s.second, counts);
        s.first.rows * s.first.columns + s.second.rows * s.second.columns
    }
}
