// What is recorded of a minute.
use keyed_log::keyed::Keyed;
pub use power::day::MINUTE_SECONDS;

pub const PERIOD_MINUTES: u16 = 15;

// The samples of one minute of the day.
#[derive(Clone, Copy, PartialEq, Eq, Debug)]
pub struct Minute {
    // minutes from the day's instant 0
    pub minute: i64,
    // of the samples' gross power, kW
    pub sum: i64,
    // of the samples
    pub count: u32,
    // every sample has its flag set
    pub flag: bool,
}

impl Keyed for Minute {
    ghost key = { λ e. e.minute };

    fn key_of(&self) -> i64 {
        self.minute
    }
}
