// The front of a display: the depth that stands there in large figures, and its lamp test.
#![tactic(auto)]

pub mod front;
pub mod lamps;
pub mod reading;
pub mod record;
#[cfg(test)]
mod tests;
pub mod theorem;
