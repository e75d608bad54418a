// Why the input cannot be shown.
use power::refusal::Refusal;
use statements::fault::Malformed;
use thiserror::Error;

#[derive(Clone, Copy, PartialEq, Debug, Error)]
pub(crate) enum Fault {
    #[error("a line begins with period, critical, instructed or sample")]
    UnknownWord,
    #[error(transparent)]
    Malformed(#[from] Malformed),
    #[error("a flag is 0 or 1")]
    NeitherSetNorNot,
    #[error("refused by 5: there is no such period")]
    NoSuchPeriod,
    #[error("refused by 6: the instructed energy is out of its bounds")]
    EnergyOutOfBounds,
    #[error("that was said already")]
    SaidTwice,
    #[error("the input ends without a period")]
    NoPeriod,
    #[error("the input ends without an instructed energy")]
    NoInstructed,
    #[error(transparent)]
    Taking(#[from] Refusal),
}
