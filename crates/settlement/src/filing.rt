// Powers and filed numbers, taken where they are in bounds.
ghost use Rattle.std.specs.Prelude.{◌≡◌, true};
ghost use Rattle.settlement.specs.Bounds.{energy_bounds, weight_bounds};
ghost use Rattle.settlement.specs.Filing.{NetPowerOf, LevelOf, Metering, Instructing, level};

use super::instruction::Instruction;
use super::metered::Metered;
use super::powers::{Level, NetPower};
use super::refusal::Refusal;

// kW
pub const LEAST_NET_POWER: i64 = -1_050_000;

pub const MOST_NET_POWER: i64 = 1_000_000;

// kWh
pub const MOST_FILED: i64 = 300_000;

impl NetPower {
    // None where it is out of bounds.
    pub fn new(kilowatts: i64) -> Option<NetPower>
        ensures { NetPowerOf kilowatts result }
    {
        if !(LEAST_NET_POWER..=MOST_NET_POWER).contains(&kilowatts) {
            return None;
        }
        Some(NetPower {
            kilowatts: kilowatts as i32,
        })
    }
}

fn is_energy(kilowatt_hours: i64) -> bool
    ensures { result ≡ energy_bounds kilowatt_hours }
{
    (-MOST_FILED..=MOST_FILED).contains(&kilowatt_hours)
}

fn is_weight(kilowatt_hours: i64) -> bool
    ensures { result ≡ weight_bounds kilowatt_hours }
{
    (0..=MOST_FILED).contains(&kilowatt_hours)
}

// An energy in kWh over a quarter of an hour, as a power.
fn level_of(instructed: i64) -> Level
    requires { energy_bounds instructed ≡ true }
    ensures { result.kilowatts ≡ level instructed }
{
    Level {
        kilowatts: (4 * instructed) as i32,
    }
}

impl Level {
    // The level of an instructed energy, in kWh.
    pub fn new(instructed: i64) -> Result<Level, Refusal>
        ensures { LevelOf instructed result }
    {
        let true = is_energy(instructed) else {
            return Err(Refusal::OutOfBounds);
        };
        Ok(level_of(instructed))
    }
}

impl Metered {
    pub fn new(kilowatt_hours: i64) -> Result<Metered, Refusal>
        ensures { Metering kilowatt_hours result }
    {
        let true = is_weight(kilowatt_hours) else {
            return Err(Refusal::OutOfBounds);
        };
        Ok(Metered { kilowatt_hours })
    }
}

impl Instruction {
    pub fn new(
        instructed: i64,
        market_schedule: i64,
        direct_weight: i64,
        scheduled_weight: i64,
    ) -> Result<Instruction, Refusal>
        ensures { Instructing instructed market_schedule direct_weight scheduled_weight result }
    {
        let energies = is_energy(instructed) & is_energy(market_schedule);
        let weights = is_weight(direct_weight) & is_weight(scheduled_weight);
        let true = energies & weights else {
            return Err(Refusal::OutOfBounds);
        };
        Ok(Instruction {
            instructed,
            market_schedule,
            direct_weight,
            scheduled_weight,
        })
    }

    // The level that the period's certified power is held against.
    pub fn level(self) -> Level
        ensures { result.kilowatts ≡ level self.instructed }
    {
        level_of(self.instructed)
    }
}
