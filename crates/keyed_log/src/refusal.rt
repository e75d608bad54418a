// Why a log refuses an entry.
ghost use Rattle.std.specs.Prelude.{◌≡◌};
ghost use Rattle.keyed_log.specs.Writing.{number_of};

#[derive(Clone, Copy, PartialEq, Eq, Debug)]
pub enum Refusal {
    // an append whose key is not above the last one's, or a replacement under another key
    NotRising = 3,
    // an append where all borrowed slots are used
    Full = 4,
}

impl Refusal {
    pub fn number(self) -> u32
        ensures { result ≡ number_of self }
    {
        self as u32
    }
}
