// Certified power, and its deviation from the level.
ghost use Rattle.std.specs.Prelude.{◌≡◌, ◌*◌, ◌≤◌, ◌-ℤ◌, ◌*ℤ◌, unsigned_abs};
ghost use Rattle.arith.specs.Division.{nearest as nearest_of};
ghost use Rattle.settlement.specs.Certifying.{FactorOf, net_sum_of, certified_sum_of, certified as certified_of};
ghost use Rattle.settlement.specs.Terms.{deviation_by, exact_deviation_by};
ghost use Rattle.settlement.specs.Fractions.{Rounds};

use super::factor::Factor;
use super::metered::Metered;
use super::powers::{Level, NetPower};
use super::refusal::Refusal;
use super::terms::Terms;
use arith::division::nearest;
use arith::divisor::Divisor;

// Half a kilowatt second is a half; 7,200 of them are 1 kWh.
pub const HALVES_PER_KILOWATT_HOUR: i64 = 7_200;

// `a` / `by` to the nearest kW, where it is at most 4,200,000 kW in size.
fn nearest_power(a: i64, by: Divisor) -> i32
    requires { unsigned_abs a ≤ 4200000 * by.value }
    ensures value { result ≡ nearest_of a by.value }
    ensures bound { unsigned_abs result ≤ 4200000 }
{
    nearest(a, by) as i32
}

impl Factor {
    // The factor of a period with that net sum, in halves.
    pub fn new(net_sum: i64, metered: Metered) -> Result<Factor, Refusal>
        ensures { FactorOf net_sum metered.kilowatt_hours result }
    {
        let Some(net_sum) = Divisor::new(net_sum) else {
            return Err(Refusal::NoNetEnergy);
        };
        let certified_sum = HALVES_PER_KILOWATT_HOUR * metered.kilowatt_hours;
        // a certified sum is far below where the product would be cut off
        let true = certified_sum as u64 <= net_sum.value.saturating_mul(4) else {
            return Err(Refusal::FactorAboveFour);
        };
        Ok(Factor {
            net_sum,
            certified_sum,
        })
    }

    // net × A, at most 4,200,000 × N in size.
    fn scaled(self, net: NetPower) -> i64
        ensures value { result ≡ net.kilowatts *ℤ certified_sum_of self }
        ensures bound { unsigned_abs result ≤ 4200000 * net_sum_of self }
    {
        net.kilowatts as i64 * self.certified_sum
    }

    // net × A / N to the nearest kW; `certified` states how near it lies.
    fn worked_power(self, net: NetPower) -> i32
        ensures value { result ≡ certified_of (net_sum_of self) (certified_sum_of self) net.kilowatts }
        ensures bound { unsigned_abs result ≤ 4200000 }
    {
        nearest_power(self.scaled(net), self.net_sum)
    }

    // The certified power of a net power: net × A / N to the nearest kW.
    pub fn certified(self, net: NetPower) -> i32
        ensures value { result ≡ certified_of (net_sum_of self) (certified_sum_of self) net.kilowatts }
        ensures near { Rounds (net_sum_of self) result (net.kilowatts *ℤ certified_sum_of self) }
        ensures bound { unsigned_abs result ≤ 4200000 }
    {
        self.worked_power(net)
    }
}

impl Terms {
    // The certified power less the level; `deviation` states how near it lies.
    fn worked_deviation(self, net: NetPower) -> i32
        ensures value { result ≡ deviation_by self net.kilowatts }
        ensures bound { unsigned_abs result ≤ 5400000 }
    {
        self.factor.certified(net) - self.level.kilowatts
    }

    // The certified power less the level.
    pub fn deviation(self, net: NetPower) -> i32
        ensures value { result ≡ deviation_by self net.kilowatts }
        ensures near { Rounds (net_sum_of self.factor) result (exact_deviation_by self net.kilowatts) }
        ensures bound { unsigned_abs result ≤ 5400000 }
    {
        self.worked_deviation(net)
    }
}
