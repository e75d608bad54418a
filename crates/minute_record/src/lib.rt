// The minute record: one entry for each minute that has a sample.
#![tactic(auto)]

mod entering;
pub mod minute;
pub mod minute_record;
mod pieces;
pub mod reading;
pub mod record;
pub mod taking;
