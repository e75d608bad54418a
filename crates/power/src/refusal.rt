// Why a sample is refused.
ghost use Rattle.std.specs.Prelude.{◌≡◌};
ghost use Rattle.power.specs.Taking.{number_of, from_log};

use thiserror::Error;

#[derive(Clone, Copy, PartialEq, Eq, Debug, Error)]
pub enum Refusal {
    #[error("refused by 1: the instant is not of the day")]
    NoSuchInstant = 1,
    #[error("refused by 2: the gross power is out of its bounds")]
    PowerOutOfBounds = 2,
    #[error("refused by 3: the instant is not later than the last one")]
    NotLater = 3,
    // a further entry is needed, and all borrowed ones are used
    #[error("refused by 4: the memory is full")]
    Full = 4,
}

impl Refusal {
    pub fn number(self) -> u32
        ensures { result ≡ number_of self }
    {
        self as u32
    }
}

impl From<keyed_log::refusal::Refusal> for Refusal {
    ghost from_gives = { λ l r. r ≡ from_log l };

    fn from(refusal: keyed_log::refusal::Refusal) -> Refusal {
        match refusal {
            keyed_log::refusal::Refusal::NotRising => Refusal::NotLater,
            keyed_log::refusal::Refusal::Full => Refusal::Full,
        }
    }
}
