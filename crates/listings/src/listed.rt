// A listing as it is read.
ghost use Rattle.std.specs.Prelude.{◌≡◌};
ghost use Rattle.listings.specs.Listed.{set_of};

// The sets of a listing: their members, where each ends among these, and how many there are.
#[derive(Drop)]
pub struct Sets<'a> {
    pub members: &'a [u32],
    pub ends: &'a [u32],
    pub count: usize,
}

impl<'a> Sets<'a> {
    // The members of one set.
    pub fn at(&self, k: usize) -> &'a [u32]
        ensures { result.now ≡ set_of self.now k }
    {
        crate::members_of(self.members, self.ends, self.count, k)
    }
}
