// The minute method over the fifteen minutes of a quarter of an hour, all under automatic control.
ghost use Rattle.std.specs.Prelude.{◌≡◌, ◌^◌, ◌≤◌, true, unsigned_abs};
ghost use Rattle.arith.specs.Division.{nearest as nearest_of};
ghost use Rattle.arith.specs.Sums.{int_sum};
ghost use Rattle.settlement.specs.Certifying.{net_sum_of, certified_sum_of};
ghost use Rattle.quarter_hour.specs.Working.{energy, agrees as agrees_of, worked, upward_of, downward_of};

use super::minute::{PrintedMinute, Totals, WorkedMinute};
use arith::division::nearest;
use arith::divisor::Divisor;
pub use power::day::MINUTE_SECONDS as MINUTE;
use power::piece::Piece;
use settlement::certifying::HALVES_PER_KILOWATT_HOUR;
use settlement::piece::{NetPiece, net_energy};
use settlement::terms::Terms;

impl PrintedMinute {
    // A minute is a flat piece that counts.
    fn piece(self) -> NetPiece
        ensures { result ≡ record { start = self.net; end = self.net; width = 60; counts = true } }
    {
        Piece {
            start: self.net,
            end: self.net,
            width: MINUTE,
            counts: true,
        }
    }
}

// The net sum of the quarter of an hour, in halves.
pub fn net_sum(minutes: &[PrintedMinute; 15]) -> i64
    ensures { result ≡ int_sum energy minutes.now }
{
    let mut sum = 0;
    for minute in minutes {
        sum += net_energy(minute.piece());
    }
    sum
}

// An area in halves as an energy, to the nearest kWh.
pub fn kilowatt_hours(area: i64) -> i64
    ensures { result ≡ nearest_of area 7200 }
{
    nearest(area, Divisor { value: 7_200 })
}

// Whether an area in halves is at most 1 kWh from a printed energy.
fn agrees(area: i64, printed: u32) -> bool
    requires { unsigned_abs area ≤ 2 ^ 49 }
    ensures { result ≡ agrees_of area printed }
{
    let apart = area - HALVES_PER_KILOWATT_HOUR * printed as i64;
    (-HALVES_PER_KILOWATT_HOUR..=HALVES_PER_KILOWATT_HOUR).contains(&apart)
}

// A minute's certified power and areas, and whether they are those printed.
pub fn work(terms: Terms, minute: PrintedMinute) -> WorkedMinute
    ensures { result ≡ worked (net_sum_of terms.factor) (certified_sum_of terms.factor) terms.level.kilowatts minute }
{
    let areas = terms.areas(minute.piece());
    WorkedMinute {
        certified: terms.factor.certified(minute.net),
        areas,
        agrees: agrees(areas.upward, minute.upward) & agrees(areas.downward, minute.downward),
    }
}

// The areas of all fifteen minutes.
pub fn totals(terms: Terms, minutes: &[PrintedMinute; 15]) -> Totals
    ensures upward { result.upward ≡ int_sum (upward_of (net_sum_of terms.factor) (certified_sum_of terms.factor) terms.level.kilowatts) minutes.now }
    ensures downward { result.downward ≡ int_sum (downward_of (net_sum_of terms.factor) (certified_sum_of terms.factor) terms.level.kilowatts) minutes.now }
{
    let mut upward = 0;
    let mut downward = 0;
    for minute in minutes {
        let areas = terms.areas(minute.piece());
        upward += areas.upward;
        downward += areas.downward;
    }
    Totals { upward, downward }
}
