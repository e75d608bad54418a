// Whole-number arithmetic: division with its floor and its rest, the nearest whole number, interpolation.
#![tactic(auto)]

pub mod division;
pub mod divisor;
pub mod interpolation;
