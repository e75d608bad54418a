// The piece of a minute, from the recorded minutes on both sides of it.
ghost use Rattle.std.specs.Prelude.{◌≡◌, true, ◌-ℤ◌, ◌≤ℤ◌};
ghost use Rattle.arith.specs.Interpolation.{interpolation};
ghost use Rattle.minute_record.specs.Minutes.{is_sampled, mean as mean_of, flat as flat_piece, minute_piece};

use super::minute::{MINUTE_SECONDS, Minute};
use arith::division::nearest;
use arith::divisor::Divisor;
use arith::interpolation::interpolate;
use power::piece::{GrossPiece, Piece};

impl Minute {
    // The nearest mean of its samples, kW.
    fn mean(self) -> i32
        requires { is_sampled self ≡ true }
        ensures { result ≡ mean_of self }
    {
        let by = Divisor {
            value: self.count as u64,
        };
        nearest(self.sum, by) as i32
    }
}

fn flat(counts: bool, power: i32) -> GrossPiece
    ensures { result ≡ flat_piece counts power }
{
    Piece {
        start: power,
        end: power,
        width: MINUTE_SECONDS,
        counts,
    }
}

// A minute between two recorded ones, or one of them itself.
#[derive(Clone, Copy)]
pub(crate) struct Between {
    pub(crate) minute: i64,
    // recorded, the last at or before the minute
    pub(crate) before: Minute,
    // recorded, the first at or after it
    pub(crate) after: Minute,
    ghost before_sampled: { is_sampled before ≡ true },
    ghost after_sampled: { is_sampled after ≡ true },
    ghost at_or_after: { before.minute ≤ℤ minute },
    ghost at_or_before: { minute ≤ℤ after.minute },
}

impl Between {
    // The power on the line between the two, kW; none where they are one.
    fn power(self) -> Option<i32>
        ensures { result ≡ interpolation (mean_of self.before) (mean_of self.after) (self.minute -ℤ self.before.minute) (self.after.minute -ℤ self.before.minute) }
    {
        interpolate(
            self.before.mean(),
            self.after.mean(),
            (self.minute - self.before.minute) as i32,
            (self.after.minute - self.before.minute) as i32,
        )
    }

    pub(crate) fn piece(self) -> Option<GrossPiece>
        ensures { result ≡ minute_piece self.minute self.before self.after }
    {
        if self.before.minute == self.minute {
            return Some(flat(self.before.flag, self.before.mean()));
        }
        Some(flat(self.before.flag & self.after.flag, self.power()?))
    }
}
