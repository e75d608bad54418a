// The reference figures: worked numbers, proved jointly of the definitions and given by the code.
#![tactic(auto)]

pub mod figures;
