// Division with its floor and its rest, and the nearest whole number.
ghost use Rattle.std.specs.Prelude.{◌≡◌, ◌*◌, ◌<◌, pos, ◌≤ℤ◌, MatchOption, nat_le};
ghost use Rattle.arith.specs.Division.{floor, rest, Divided, nearest as nearest_of};

use super::divisor::Divisor;

impl Divisor {
    // The divisor of that value; none where it is 0 or less.
    pub fn new(value: i64) -> Option<Divisor>
        ensures { MatchOption result (value ≤ℤ pos 0) (λ d. value ≡ pos d.value) }
    {
        if value <= 0 {
            return None;
        }
        Some(Divisor {
            value: value as u64,
        })
    }
}

// The floor of `a` / `by`, and the rest that is left, from 0 to the divisor less one.
pub fn divide(a: i64, by: Divisor) -> (i64, u64)
    ensures floor { result.0 ≡ floor a by.value }
    ensures rest { result.1 ≡ rest a by.value }
    ensures whole { Divided a by.value result.0 result.1 }
{
    let by = by.value as i64;
    (a.div_euclid(by), a.rem_euclid(by) as u64)
}

// Whether a rest is half of the divisor or more.
fn half_or_more(rest: u64, by: Divisor) -> bool
    requires { rest < by.value }
    ensures { result ≡ nat_le by.value (2 * rest) }
{
    rest >= by.value - rest
}

// `a` / `by` to the nearest whole number: a half goes up, below zero too.
pub fn nearest(a: i64, by: Divisor) -> i64
    ensures value { result ≡ nearest_of a by.value }
{
    let (floor, rest) = divide(a, by);
    if half_or_more(rest, by) {
        floor + 1
    } else {
        floor
    }
}
