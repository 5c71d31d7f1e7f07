// The bench with a station and a display on each carrier, behind a line of text.
#![tactic(auto)]

pub mod command;
pub mod post;
pub mod state;
