// A quarter of an hour by the minute method: put together, worked, and held against a printed table.
#![tactic(auto)]

pub mod draft;
pub mod drafting;
pub mod minute;
pub mod working;
