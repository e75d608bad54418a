// A quarter of an hour as it is put together, statement by statement.
use super::minute::PrintedMinute;
use settlement::metered::Metered;
use settlement::powers::Level;
use thiserror::Error;

// What is said of the quarter of an hour.
#[derive(Clone, Copy)]
pub enum Statement {
    Meter(Metered),
    Instructed(Level),
    Minute(PrintedMinute),
}

// Why a statement is not taken, or the whole is not complete.
#[derive(Clone, Copy, PartialEq, Eq, Debug, Error)]
pub enum Incomplete {
    #[error("a second meter")]
    MeterTwice,
    #[error("a second instructed energy")]
    InstructedTwice,
    #[error("a sixteenth minute")]
    SixteenthMinute,
    #[error("the input ends without a meter")]
    NoMeter,
    #[error("the input ends without an instructed energy")]
    NoInstructed,
    #[error("the input ends before the fifteenth minute")]
    FewMinutes,
}

// What has been said so far: the first `count` minutes are taken.
#[derive(Clone, Copy)]
pub struct Draft {
    pub metered: Option<Metered>,
    pub level: Option<Level>,
    pub minutes: [PrintedMinute; 15],
    pub count: usize,
}

// The whole quarter of an hour.
#[derive(Clone, Copy)]
pub struct QuarterHour {
    pub metered: Metered,
    pub level: Level,
    pub minutes: [PrintedMinute; 15],
}
