// The settlement's parts: certified power, areas above and below the level, the split of the instructed energy.
#![tactic(auto)]

pub mod area;
pub mod certifying;
pub mod factor;
pub mod figures;
pub mod filing;
pub mod instruction;
pub mod metered;
pub mod piece;
pub mod powers;
pub mod refusal;
pub mod split;
pub mod splitting;
pub mod terms;
