// A rectangle of the page, both ends inside it. A rectangle of the levelled picture is `rects::Rect`.
#[derive(Clone, Copy)]
pub struct PageRect {
    pub x0: u32,
    pub y0: u32,
    pub x1: u32,
    pub y1: u32,
}
