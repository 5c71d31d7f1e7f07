// What stations and displays do, whichever carrier they stand on, and the theorem over their whole runs.
#![tactic(auto)]

pub mod theorem;
