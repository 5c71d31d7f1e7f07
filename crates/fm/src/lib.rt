// FM: labels as RadioText with RT+.
#![tactic(auto)]

pub mod as_carrier;
mod blocks;
pub mod fm;
mod frame;
mod take;
pub mod text;
