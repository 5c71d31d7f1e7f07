// Frames as lines of text.
#![tactic(auto)]

pub mod form;
