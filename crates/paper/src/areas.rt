// Where the samples of the paper lie: two areas, on either side of the ruling, 3 to 6 pixels away.
ghost use Rattle.std.specs.Prelude.{◌≤◌, ◌<◌};
ghost use Rattle.rects.specs.Steps.{Inside};
ghost use Rattle.paper.specs.Steps.{Beside, Sampled};

use rects::Rect;

// Two runs of places, each given by its first and its number.
#[derive(Clone, Copy)]
pub struct Strips {
    pub first: usize,
    pub firsts: usize,
    pub second: usize,
    pub seconds: usize,
}

// Pixels in some columns from x on and some rows from y on.
#[derive(Clone, Copy)]
pub struct Area {
    pub x: usize,
    pub columns: usize,
    pub y: usize,
    pub rows: usize,
}

#[derive(Clone, Copy)]
pub struct Areas {
    pub first: Area,
    pub second: Area,
}

// The places below size that lie 3 to 6 before a or behind b.
fn strips_of(size: usize, a: usize, b: usize) -> Strips
    requires { (a ≤ b) × (b < size) × (size ≤ 8192) }
    ensures { Beside size a b result }
{
    let first = a.saturating_sub(6);
    let second = (b + 3).min(size);
    Strips {
        first,
        firsts: a.saturating_sub(2) - first,
        second,
        seconds: (b + 7).min(size) - second,
    }
}

// The two areas in which the samples lie. `horizontal` says whether the ruling is. A bool, as the Rust has it: a test finds it (`pieces`).
pub fn beside(w: usize, h: usize, r: Rect, horizontal: bool) -> Areas
    requires { (w ≤ 8192) × (h ≤ 8192) × Inside w h r }
    ensures { Sampled w h r horizontal result }
{
    let x = r.x0 as usize;
    let y = r.y0 as usize;
    let columns = r.width() as usize;
    let rows = r.height() as usize;
    if horizontal {
        let s = strips_of(h, y, r.y1 as usize);
        return Areas {
            first: Area {
                x,
                columns,
                y: s.first,
                rows: s.firsts,
            },
            second: Area {
                x,
                columns,
                y: s.second,
                rows: s.seconds,
            },
        };
    }
    let s = strips_of(w, x, r.x1 as usize);
    Areas {
        first: Area {
            x: s.first,
            columns: s.firsts,
            y,
            rows,
        },
        second: Area {
            x: s.second,
            columns: s.seconds,
            y,
            rows,
        },
    }
}
