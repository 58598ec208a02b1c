// How much was found on a page.

// Rulings, printed and faint ones; tables, boxes, grids; sets of printed rulings, entries of the free list, sets of boxes. Of pieces there are
// as many sets as rulings.
#[derive(Clone, Copy, Default)]
pub struct Counts {
    pub rulings: usize,
    pub printed: usize,
    pub faint: usize,
    pub tables: usize,
    pub boxes: usize,
    pub grids: usize,
    pub printed_sets: usize,
    pub free: usize,
    pub box_sets: usize,
}
