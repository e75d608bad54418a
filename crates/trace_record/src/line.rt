// The straight line between two samples: the points on it, and the piece that it is.
ghost use Rattle.std.specs.Prelude.{◌≡◌, ◌≤◌, true, ◌&&◌, ◌≤ℤ◌, ◌<ℤ◌, nat_le};
ghost use Rattle.arith.specs.Interpolation.{interpolated};
ghost use Rattle.power.specs.Taking.{is_bounded};
ghost use Rattle.trace_record.specs.Trace.{seconds, boundary, piece as piece_of};

use arith::interpolation::interpolate;
use power::piece::{GrossPiece, Piece};
use power::sample::Sample;

#[derive(Clone, Copy)]
pub(crate) struct Line {
    pub(crate) from: Sample,
    pub(crate) to: Sample,
    ghost starts: { is_bounded from ≡ true },
    ghost ends: { is_bounded to ≡ true },
}

impl Line {
    // The power at an instant behind the first sample, to the nearest kW.
    fn power_at(self, instant: i64) -> i64
        requires after { self.from.instant <ℤ instant }
        requires before { instant ≤ℤ self.to.instant }
        ensures { result ≡ interpolated self.from.power self.to.power (seconds self.from.instant instant) (seconds self.from.instant self.to.instant) }
    {
        let step = (instant - self.from.instant) as i32;
        let span = (self.to.instant - self.from.instant) as i32;
        i64::from(interpolate(self.from.power as i32, self.to.power as i32, step, span).unwrap())
    }

    // The point at an instant.
    pub(crate) fn point_at(self, instant: i64) -> Sample
        requires after { self.from.instant ≤ℤ instant }
        requires before { instant ≤ℤ self.to.instant }
        ensures { result ≡ boundary instant self.from self.to }
    {
        if self.from.instant == instant {
            return self.from;
        }
        Sample {
            instant,
            power: self.power_at(instant),
            flag: self.from.flag || self.to.flag,
        }
    }

    // Both flags are set, and the width is at most the critical time.
    fn counts(self, width: u16, critical: u16) -> bool
        ensures { result ≡ self.from.flag && self.to.flag && nat_le width critical }
    {
        self.from.flag && self.to.flag && width <= critical
    }

    // The piece from the first sample to the second, which lies in the same period.
    pub(crate) fn piece(self, critical: u16) -> GrossPiece
        requires climbs { self.from.instant <ℤ self.to.instant }
        requires near { seconds self.from.instant self.to.instant ≤ 900 }
        ensures { result ≡ piece_of critical self.from self.to }
    {
        let width = (self.to.instant - self.from.instant) as u16;
        Piece {
            start: self.from.power as i32,
            end: self.to.power as i32,
            width,
            counts: self.counts(width, critical),
        }
    }
}
