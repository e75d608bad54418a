// A value on the straight line between two points, to the nearest whole number.
ghost use Rattle.std.specs.Prelude.{◌≡◌, ℤ, ◌-ℤ◌, ◌*ℤ◌, ◌≤ℤ◌, IfSome};
ghost use Rattle.arith.specs.Interpolation.{interpolation};

use super::division::nearest;
use super::divisor::Divisor;

// (end - start) × step: a difference of two 32-bit numbers times a third fits 64 bits.
fn rise(start: i32, end: i32, step: i32) -> i64
    ensures value { result ≡ (end -ℤ start) *ℤ step }
{
    (end as i64 - start as i64) * step as i64
}

// The value at `step` of `span` on the line from `start` to `end`; none where the line has no such place.
pub fn interpolate(start: i32, end: i32, step: i32, span: i32) -> Option<i32>
    ensures value { result ≡ interpolation start end step span }
    ensures between { IfSome result (λ v. (low high : ℤ) → low ≤ℤ start → low ≤ℤ end → start ≤ℤ high → end ≤ℤ high → (low ≤ℤ v) × (v ≤ℤ high)) }
{
    if step < 0 || step > span {
        return None;
    }
    let by = Divisor::new(span as i64)?;
    Some((start as i64 + nearest(rise(start, end, step), by)) as i32)
}
