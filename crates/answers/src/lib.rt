// What a call about one thing answers, as a C function can return it: by value.
#![tactic(auto)]

pub mod finding_at;
pub mod members_of;
pub mod rect_to_page;
pub mod to_page;
