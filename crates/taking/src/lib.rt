// What taking does on every carrier.
#![tactic(auto)]

pub mod arrived;
pub mod held;
pub mod look;
pub mod pieces;
pub mod row;
pub mod segment;
pub mod take;
pub mod taken;
pub mod tell;
#[cfg(test)]
mod tests;
