// Worked labels: one table of theorems, and a few calls that it speaks of.
#![tactic(auto)]

pub mod drafting;
pub mod sill;
pub mod table;
