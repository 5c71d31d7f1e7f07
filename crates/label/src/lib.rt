// Labels: classes, tags, lawful lists, drafts and sealed labels, and the refusals of the whole system.
#![tactic(auto)]

pub mod alike;
pub mod category;
pub mod draft;
pub mod lawful;
pub mod part;
pub mod refusal;
pub mod sealed;
pub mod tag;
mod words;
