// The display: what it holds for each class, and what a frame does to it, whichever carrier it stands on.
#![tactic(auto)]

pub mod display;
mod marked;
pub mod shown;
mod table;
pub mod told;
