// The trace record: every sample is kept, and power goes in straight lines between them.
#![tactic(auto)]

mod line;
mod points;
pub mod reading;
pub mod record;
pub mod taking;
pub mod trace;
