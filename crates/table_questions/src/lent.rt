// The lists that `tables` is lent, but for the places of the chosen rulings: answers, then work lists.
ghost use Rattle.std.specs.Prelude.{◌≡◌};
ghost use Rattle.table_questions.specs.Lent.{lists_of, room_for};

#[derive(Drop)]
pub struct Lists<'l> {
    pub members: &'l mut [u32],
    pub ends: &'l mut [u32],
    pub numbers: &'l mut [u32],
    pub bounds: &'l mut [u32],
    pub rows: &'l mut [u32],
    pub columns: &'l mut [u32],
    pub rulings: &'l mut [u32],
    pub shares: &'l mut [f64],
    pub free: &'l mut [u32],
    pub parents: &'l mut [u32],
    pub work: &'l mut [u32],
    pub keys: &'l mut [u64],
}

impl Lists<'_> {
    // Is there room for n tables, and for n rulings in each index, member or work list? `chosen` is to have their places.
    pub fn room_for(&self, n: usize, chosen: &[u32]) -> bool
        ensures { result ≡ room_for n (lists_of self.now) chosen.now }
    {
        (n <= self.numbers.len())
            & (n <= self.bounds.len() / 4)
            & (n <= self.rows.len())
            & (n <= self.columns.len())
            & (n <= self.rulings.len())
            & (n <= self.shares.len())
            & (n <= self.members.len())
            & (n <= self.ends.len())
            & (n <= self.free.len())
            & (n <= chosen.len())
            & (n <= self.parents.len())
            & (n <= self.work.len())
            & (n <= self.keys.len())
    }
}
