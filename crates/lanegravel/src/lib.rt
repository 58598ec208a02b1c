// The exported calls, a module each, named by its call; the float steps stand together. Each is thin:
// it has the contract of the function that it calls, and no `requires`, so nothing has to be vetted
// before a call. include/lanegravel.h declares them for C.
#![tactic(auto)]

mod box_grids_call;
mod boxes_call;
mod detect_call;
mod detect_lists;
mod finding_at_call;
mod floats;
mod level_gray_call;
mod log_odds_call;
mod members_of_call;
mod rect_to_page_call;
mod segments_call;
mod tables_call;
mod to_page_call;
mod unlevel_call;
mod validate_call;
mod validate_fusion_call;
