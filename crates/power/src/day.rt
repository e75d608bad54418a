// The day's instants and periods, and the bounds of gross power.
ghost use Rattle.std.specs.Prelude.{◌≡◌};
ghost use Rattle.power.specs.Day.{periods, is_period, is_instant, gross_bounds};
ghost use Rattle.power.specs.Taking.{judging};

use super::refusal::Refusal;
use super::sample::Sample;

pub const PERIODS: i64 = 96;

// s
pub const PERIOD_SECONDS: i64 = 900;

// s
pub const MINUTE_SECONDS: u16 = 60;

// A piece lasts a second at least, so a period has no more pieces than seconds.
pub const MOST_PIECES: usize = 900;

// One period's length lies before period 1, and one after the last.
pub const LAST_INSTANT: i64 = PERIOD_SECONDS * (PERIODS + 2) - 1;

// kW, either way
pub const MOST_GROSS_POWER: i64 = 1_000_000;

pub fn is_period(period: i64) -> bool
    ensures { result ≡ is_period periods period }
{
    (1..=PERIODS).contains(&period)
}

pub fn is_instant(instant: i64) -> bool
    ensures { result ≡ is_instant periods instant }
{
    (0..=LAST_INSTANT).contains(&instant)
}

pub fn is_gross_power(power: i64) -> bool
    ensures { result ≡ gross_bounds power }
{
    (-MOST_GROSS_POWER..=MOST_GROSS_POWER).contains(&power)
}

// What every record of this product asks of a sample by itself: its instant, then its power.
pub fn judge(sample: Sample) -> Result<(), Refusal>
    ensures { result ≡ judging sample }
{
    let true = is_instant(sample.instant) else {
        return Err(Refusal::NoSuchInstant);
    };
    let true = is_gross_power(sample.power) else {
        return Err(Refusal::PowerOutOfBounds);
    };
    Ok(())
}
