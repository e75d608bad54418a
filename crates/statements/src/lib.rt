// Input as lines of statements: a word, and whole numbers behind it.
#![tactic(auto)]

pub mod fault;
pub mod words;
