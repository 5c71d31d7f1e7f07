// The bench: the calls of labels and frames behind a line of text.
#![tactic(auto)]

pub mod buffer;
pub mod carriers;
pub mod command;
pub mod current;
pub mod state;
