// The lists that `segments` is lent: of the rulings, with the sets of pieces, then work lists.
ghost use Rattle.std.specs.Prelude.{◌≡◌};
ghost use Rattle.ruling_questions.specs.Lent.{lists_of, room_for};

#[derive(Drop)]
pub struct Lists<'l> {
    pub rects: &'l mut [u32],
    pub directions: &'l mut [u32],
    pub contrasts: &'l mut [f64],
    pub piece_members: &'l mut [u32],
    pub piece_ends: &'l mut [u32],
    pub parents: &'l mut [u32],
    pub listed: &'l mut [u32],
    pub listed_ends: &'l mut [u32],
    pub work: &'l mut [u32],
    pub keys: &'l mut [u64],
}

impl Lists<'_> {
    // Is there room for n rulings, and for n pieces in each index, member or work list?
    pub fn room_for(&self, n: usize) -> bool
        ensures { result ≡ room_for n (lists_of self.now) }
    {
        (n <= self.rects.len() / 4)
            & (n <= self.directions.len())
            & (n <= self.contrasts.len())
            & (n <= self.piece_members.len())
            & (n <= self.piece_ends.len())
            & (n <= self.parents.len())
            & (n <= self.listed.len())
            & (n <= self.listed_ends.len())
            & (n <= self.work.len())
            & (n <= self.keys.len())
    }
}
