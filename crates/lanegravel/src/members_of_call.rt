// The members of one set of a listing (crate `listings`).
ghost use Rattle.answers.specs.MembersOf.{PartOf};

use answers::members_of::MembersOfAnswer;

#[unsafe(no_mangle)]
pub extern "C" fn lanegravel_members_of(
    members: &[u32],
    ends: &[u32],
    count: usize,
    set: usize,
) -> MembersOfAnswer
    ensures { PartOf members.now ends.now count set result }
{
    answers::members_of::members_of(members, ends, count, set)
}
