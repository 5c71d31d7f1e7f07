// The station: item starts, item ends, and labels sent as frames.
#![tactic(auto)]

mod places;
pub mod station;
