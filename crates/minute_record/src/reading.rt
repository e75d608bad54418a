// The questions to a minute record. None changes it.
ghost use Rattle.std.specs.Prelude.{◌≡◌, is_some};
ghost use Rattle.std.specs.List.{slice_get};
ghost use Rattle.power.specs.Course.{listed};
ghost use Rattle.minute_record.specs.Minutes.{piece_of, minutes_cover};
ghost use Rattle.minute_record.specs.MinuteRecords.{minutes, meaning};

use super::minute::PERIOD_MINUTES;
use super::minute_record::MinuteRecord;
use super::pieces::Between;
use keyed_log::log::Log;
use power::day::is_period;
use power::piece::GrossPiece;

impl<'a> MinuteRecord<'a> {
    // Whether a recorded minute lies at or before the period's first, and two lie after its last.
    pub fn is_covered(&self, period: i64) -> bool
        ensures rule { result ≡ minutes_cover (minutes self.now) period }
        ensures meaning { result ≡ is_some (meaning self.now period) }
    {
        if !is_period(period) {
            return false;
        }
        let first = PERIOD_MINUTES as i64 * period;
        let next = first + PERIOD_MINUTES as i64;
        !self.log.through(first).is_empty() && self.log.onward(next).len() >= 2
    }

    // The piece of a minute; none where no recorded minute lies at or before it, or none at or after it.
    fn piece_of(&self, minute: i64) -> Option<GrossPiece>
        ensures { result ≡ piece_of (minutes self.now) minute }
    {
        let before = self.log.last_at_or_before(minute)?;
        let after = self.log.first_at_or_after(minute)?;
        Between {
            minute,
            before,
            after,
        }
        .piece()
    }

    // The period's piece at a place from 0; none past the last, and none where the period is not covered.
    #[tactic(auto, using(crate::proofs::Places::place_past))]
    pub fn piece_at(&self, period: i64, place: usize) -> Option<GrossPiece>
        ensures { result ≡ slice_get (listed (meaning self.now period)) place }
    {
        if !self.is_covered(period) || place >= PERIOD_MINUTES as usize {
            return None;
        }
        self.piece_of(PERIOD_MINUTES as i64 * period + place as i64)
    }
}
