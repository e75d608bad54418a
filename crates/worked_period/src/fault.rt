// Why the input cannot be worked.
use quarter_hour::draft::Incomplete;
use statements::fault::Malformed;
use thiserror::Error;

#[derive(Clone, Copy, PartialEq, Debug, Error)]
pub(crate) enum Fault {
    #[error("a line begins with meter, instructed or minute")]
    UnknownWord,
    #[error(transparent)]
    Malformed(#[from] Malformed),
    #[error("a number is out of its bounds")]
    OutOfBounds,
    #[error(transparent)]
    Draft(#[from] Incomplete),
}
