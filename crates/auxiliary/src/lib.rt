// The auxiliary power at a gross power: what a rule is, and the two rules, none and a declaration of ranges.
#![tactic(auto)]

pub mod answering;
pub mod declaration;
pub mod draft;
pub mod drafting;
pub mod none;
pub mod range;
mod ranges;
pub mod refusal;
pub mod rule;
