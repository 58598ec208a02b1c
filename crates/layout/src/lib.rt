// The page: its sides, its shear tables, rectangles and places, and the way back to the page.
#![tactic(auto)]

pub mod calls;
pub mod page;
pub mod rect;
pub mod sides;
pub mod tables;
