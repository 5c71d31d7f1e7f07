// The DAB carrier: Dynamic Label with DL Plus.
#![tactic(auto)]

pub mod as_carrier;
mod command;
pub mod dab;
mod filled;
mod frame;
mod head;
mod load;
mod open;
mod prefix;
mod segment;
mod tags;
mod take;
mod text;
mod writing;
