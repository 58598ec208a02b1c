// The members of one set of a listing (crate `listings`).
ghost use Rattle.answers.specs.MembersOf.{PartOf};

// A part of the member list: where it starts, and how many entries it has.
#[repr(C)]
#[derive(Clone, Copy)]
pub struct MembersOfAnswer {
    pub start: usize,
    pub count: usize,
}

// A C function can't return a slice, so the part is given by its bounds. The count of sets stands beside the lists, since C's lists
// may be longer than what is in use.
pub fn members_of(members: &[u32], ends: &[u32], count: usize, set: usize) -> MembersOfAnswer
    ensures { PartOf members.now ends.now count set result }
{
    let part = listings::members_of(members, ends, count, set);
    let size = part.len();
    if size == 0 {
        return MembersOfAnswer { start: 0, count: 0 };
    }
    MembersOfAnswer {
        start: listings::start_of(ends, set),
        count: size,
    }
}
