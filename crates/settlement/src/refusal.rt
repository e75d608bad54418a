// Why filed numbers or a period's certification are refused.
ghost use Rattle.std.specs.Prelude.{◌≡◌};
ghost use Rattle.settlement.specs.Refusals.{number_of};

use thiserror::Error;

#[derive(Clone, Copy, PartialEq, Eq, Debug, Error)]
pub enum Refusal {
    #[error("refused by 6: a filed quantity is out of its bounds")]
    OutOfBounds = 6,
    #[error("refused by 11: the net sum is 0 or less")]
    NoNetEnergy = 11,
    #[error("refused by 12: the certified sum is more than four times the net sum")]
    FactorAboveFour = 12,
}

impl Refusal {
    pub fn number(self) -> u32
        ensures { result ≡ number_of self }
    {
        self as u32
    }
}
