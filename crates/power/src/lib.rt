// What a power record is: the samples that it takes, the pieces that it means, and its laws.
#![tactic(auto)]

pub mod day;
pub mod piece;
pub mod pieces;
pub mod record;
pub mod refusal;
pub mod sample;
