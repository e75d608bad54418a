// A log of entries with rising keys, in memory borrowed for the day.
#![tactic(auto)]

pub mod keyed;
pub mod log;
pub mod reading;
pub mod refusal;
mod search;
pub mod writing;
