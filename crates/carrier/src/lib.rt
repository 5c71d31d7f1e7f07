// The carrier: one interface above which nobody knows which carrier it is.
#![tactic(auto)]

pub mod airing;
pub mod answer;
pub mod carrier;
pub mod short_list;
pub mod told;
pub mod writing;
