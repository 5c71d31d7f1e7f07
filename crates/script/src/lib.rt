// The console's words: lines and the numbers and bytes in them as they are read, and replies as they are written.
#![tactic(auto)]

pub mod console;
pub mod fault;
pub mod reply;
#[cfg(test)]
mod tests;
pub mod words;
