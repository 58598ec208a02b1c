// A rectangle's place on the page, and its sort key.
ghost use Rattle.std.specs.Prelude.{◌≡◌, ◌<◌, ◌≤◌};
ghost use Rattle.rects.specs.Around.{around};
ghost use Rattle.rects.specs.Steps.{Inside};
ghost use Rattle.evidence.specs.Finding.{number_of};
ghost use Rattle.findings.specs.Keys.{page_key};
ghost use Rattle.findings.specs.Made.{on_page};
ghost use Rattle.findings.specs.Steps.{SetGiven};

use crate::sources::Scan;
use evidence::finding::KindName;
use layout::rect::PageRect;
use rects::Rect;

// y0, x0 and the kind's number as one number.
fn key_of(r: PageRect, kind: KindName) -> u64
    requires { (r.x0 < 8192) × (r.y0 < 8192) }
    ensures { result ≡ page_key r (number_of kind) }
{
    (u64::from(r.y0) * 8192 + u64::from(r.x0)) * 4 + (u64::from(kind.number()) - 16)
}

impl Scan<'_> {
    // Where a rectangle of the picture lies on the page.
    pub fn on_page(&self, r: Rect) -> PageRect
        requires { Inside self.now.sides.w self.now.sides.h r }
        ensures place { result ≡ on_page self.now r }
        ensures small { (result.x0 < 8192) × (result.y0 < 8192) }
    {
        let shears = &self.shears;
        shears.rect_to_page(r)
    }

    // Where the smallest rectangle around those at some places lies on the page.
    pub fn around(&self, rects: &[u32], places: &[u32]) -> PageRect
        requires { SetGiven self.now.sides.w self.now.sides.h rects.now places.now }
        ensures place { result ≡ on_page self.now (around rects.now places.now) }
        ensures small { (result.x0 < 8192) × (result.y0 < 8192) }
    {
        let r = rects::bounding(rects, places);
        self.on_page(r)
    }

    // The sort key of a finding of a kind that has this rectangle.
    pub fn key(&self, r: Rect, kind: KindName) -> u64
        requires { Inside self.now.sides.w self.now.sides.h r }
        ensures { result ≡ page_key (on_page self.now r) (number_of kind) }
    {
        key_of(self.on_page(r), kind)
    }

    // The sort key of a finding of a kind that has the smallest rectangle around those at some places.
    pub fn key_around(&self, rects: &[u32], places: &[u32], kind: KindName) -> u64
        requires { SetGiven self.now.sides.w self.now.sides.h rects.now places.now }
        ensures { result ≡ page_key (on_page self.now (around rects.now places.now)) (number_of kind) }
    {
        key_of(self.around(rects, places), kind)
    }
}
