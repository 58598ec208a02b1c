// The lists that `box_grids` is lent: answers, then work lists.
ghost use Rattle.std.specs.Prelude.{◌≡◌};
ghost use Rattle.grids.specs.Lent.{lists_of, room_for};

#[derive(Drop)]
pub struct Lists<'l> {
    pub members: &'l mut [u32],
    pub ends: &'l mut [u32],
    pub reading: &'l mut [u32],
    pub numbers: &'l mut [u32],
    pub parents: &'l mut [u32],
    pub work: &'l mut [u32],
    pub keys: &'l mut [u64],
}

impl Lists<'_> {
    // Has every list an entry for each of n boxes?
    pub fn room_for(&self, n: usize) -> bool
        ensures { result ≡ room_for n (lists_of self.now) }
    {
        (n <= self.members.len())
            & (n <= self.ends.len())
            & (n <= self.reading.len())
            & (n <= self.numbers.len())
            & (n <= self.parents.len())
            & (n <= self.work.len())
            & (n <= self.keys.len())
    }
}
