// Why a line cannot be read, and which line that is.
use std::fmt::Display;
use thiserror::Error;

// A line has other numbers than its word asks for.
#[derive(Clone, Copy, PartialEq, Eq, Debug, Error)]
pub enum Malformed {
    #[error("a number is missing")]
    MissingNumber,
    #[error("not a whole number")]
    NotANumber,
    #[error("more numbers than this line has")]
    TooManyNumbers,
}

// A fault, and the number of its line from 1; at the input's end, that of the line that would come next.
#[derive(Clone, Copy, PartialEq, Eq, Debug, Error)]
#[error_bound(F: Display)]
#[error("line {line}: {fault}")]
pub struct FaultAt<F> {
    pub line: usize,
    pub fault: F,
}
