// The sides of stored calls: the page's, then the levelled picture's, each width and height.
use crate::words::Reader;
use layout::sides::Sides;

// By `as`, since there is no `From` from u64 to usize.
pub fn read(reader: &mut Reader<'_>) -> Sides {
    Sides {
        pw: reader.word() as usize,
        ph: reader.word() as usize,
        w: reader.word() as usize,
        h: reader.word() as usize,
    }
}
