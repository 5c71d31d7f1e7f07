// A studio's programme, line by line: what a line says, and the label that is made of it.
#![tactic(auto)]

pub mod composed;
mod depth;
mod digits;
pub mod entry;
pub mod fault;
pub mod line;
mod number;
mod rows;
#[cfg(test)]
mod tests;
pub mod text;
mod time;
