// The split of the instructed energy into direct, scheduled and other.
ghost use Rattle.std.specs.Prelude.{◌≡◌, ◌+◌, ◌≤◌, pos, ◌+ℤ◌, ◌-ℤ◌, neg_ℤ, if◌then◌else◌, int_lt, unsigned_abs};
ghost use Rattle.settlement.specs.Splitting.{share as share_of, surplus as surplus_of, parts_of};

use super::instruction::Instruction;
use super::split::Parts;
use arith::division::divide;
use arith::divisor::Divisor;

// A size with the sign of d.
fn with_sign(size: i64, d: i64) -> i64
    requires { unsigned_abs size ≤ 180000000000 }
    ensures value { result ≡ (if int_lt d (pos 0) then neg_ℤ size else size) }
    ensures bound { unsigned_abs result ≤ 180000000000 }
{
    if d < 0 { -size } else { size }
}

// |d| × weight / weights rounded down, with the sign of d.
fn share(d: i64, weight: u64, weights: Divisor) -> i64
    requires surplus { unsigned_abs d ≤ 600000 }
    requires weight { weight ≤ 300000 }
    ensures value { result ≡ share_of d weight weights.value }
    ensures bound { unsigned_abs result ≤ 180000000000 }
{
    let (size, _) = divide(d.abs() * weight as i64, weights);
    with_sign(size, d)
}

impl Instruction {
    // The instructed energy less the market schedule.
    fn surplus(self) -> i64
        ensures value { result ≡ surplus_of self }
        ensures bound { unsigned_abs result ≤ 600000 }
    {
        self.instructed - self.market_schedule
    }

    // The sum of both weights.
    fn weights(self) -> i64
        ensures { result ≡ pos (unsigned_abs self.direct_weight + unsigned_abs self.scheduled_weight) }
    {
        self.direct_weight + self.scheduled_weight
    }

    // As a size.
    fn direct_weight(self) -> u64
        ensures value { result ≡ unsigned_abs self.direct_weight }
        ensures bound { result ≤ 300000 }
    {
        self.direct_weight.unsigned_abs()
    }

    // The surplus by the two weights.
    pub fn split(self) -> Parts
        ensures value { result ≡ parts_of self }
        ensures sum { result.direct +ℤ result.scheduled +ℤ result.other ≡ surplus_of self }
    {
        let surplus = self.surplus();
        let Some(weights) = Divisor::new(self.weights()) else {
            return Parts {
                direct: 0,
                scheduled: 0,
                other: surplus,
            };
        };
        let direct = share(surplus, self.direct_weight(), weights);
        Parts {
            direct,
            scheduled: surplus - direct,
            other: 0,
        }
    }
}
