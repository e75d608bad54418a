// Why a range is refused.
ghost use Rattle.std.specs.Prelude.{◌≡◌};
ghost use Rattle.auxiliary.specs.Refusals.{number_of};

#[derive(Clone, Copy, PartialEq, Eq, Debug)]
pub enum Refusal {
    // the net bound or the auxiliary power is out of its bounds
    OutOfBounds = 6,
    // the draft has ten ranges
    TooManyRanges = 16,
    // the gross bound is not above the last one
    NotRising = 15,
}

impl Refusal {
    pub fn number(self) -> u32
        ensures { result ≡ number_of self }
    {
        self as u32
    }
}
