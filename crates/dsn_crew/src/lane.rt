//! A lane: a bounded channel from up to sixteen agents to one receiver, under a rule that says
//! what was sent, what was taken and what waits.
mod close;
mod lane_end;
mod lane_gone;
mod lane_in;
mod lane_knowledge;
mod lane_left;
mod lane_lists;
mod lane_out;
mod lane_rule;
mod lane_shut;
mod lost_item;
mod open;

pub use close::close_lane;
pub use lane_end::LaneEnd;
pub use lane_gone::LaneGone;
pub use lane_in::LaneIn;
pub use lane_left::LaneLeft;
pub use lane_lists::LaneLists;
pub use lane_out::LaneOut;
pub use lane_shut::LaneShut;
pub use lost_item::Lost;
pub use open::open_lane;
