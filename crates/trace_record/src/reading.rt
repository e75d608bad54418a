// What a trace record reads from its samples.
ghost use Rattle.std.specs.Prelude.{◌≡◌, cond, ◌&&◌, is_some, Some, None};
ghost use Rattle.std.specs.List.{slice_get};
ghost use Rattle.keyed_log.specs.Entries.{first, last, through, onward};
ghost use Rattle.power.specs.Day.{periods, is_period, start_of, end_of};
ghost use Rattle.power.specs.Course.{listed};
ghost use Rattle.trace_record.specs.Trace.{instant, point_at, points_between, points, trace_covers};
ghost use Rattle.trace_record.specs.Records.{samples, meaning};

use super::line::Line;
use super::points::point_among;
use super::trace::TraceRecord;
use power::day::{MOST_PIECES, PERIOD_SECONDS, is_period};
use power::piece::GrossPiece;
use power::sample::Sample;

// The instants where a period starts and ends; none where the day has no such period.
fn ends(period: i64) -> Option<(i64, i64)>
    ensures { result ≡ cond (is_period periods period) (Some (start_of period, end_of period)) None }
{
    if !is_period(period) {
        return None;
    }
    let start = PERIOD_SECONDS * period;
    Some((start, start + PERIOD_SECONDS))
}

impl<'a> TraceRecord<'a> {
    // The point at an instant; none where samples do not lie on both sides of it, or one on it.
    pub fn point_at(&self, instant: i64) -> Option<Sample>
        ensures { result ≡ point_at (samples self.now) instant }
    {
        let from = self.log.last_at_or_before(instant)?;
        let to = self.log.first_at_or_after(instant)?;
        Some(Line { from, to }.point_at(instant))
    }

    // The point at a place among those from `start` to `end`.
    fn point_between(&self, start: i64, end: i64, place: usize) -> Option<Sample>
        ensures { result ≡ slice_get (listed (points_between (samples self.now) start end)) place }
    {
        let first = self.point_at(start)?;
        let last = self.point_at(end)?;
        point_among(first, self.log.between(start, end), last, place)
    }

    // The period's point at a place.
    fn point(&self, period: i64, place: usize) -> Option<Sample>
        ensures { result ≡ slice_get (listed (points (samples self.now) period)) place }
    {
        let (start, end) = ends(period)?;
        self.point_between(start, end, place)
    }

    // The period's piece at a place from 0; none past the last, and none where the period is not covered.
    #[tactic(auto, using(crate::proofs::Places::entry_pieces), unfolding(crate::proofs::Places::pair_if))]
    pub fn piece_at(&self, period: i64, place: usize) -> Option<GrossPiece>
        ensures { result ≡ slice_get (listed (meaning self.now period)) place }
    {
        if place >= MOST_PIECES {
            return None;
        }
        let from = self.point(period, place)?;
        let to = self.point(period, place + 1)?;
        Some(Line { from, to }.piece(self.critical))
    }

    // Whether a sample lies at or before `start`, and one at or after `end`.
    fn lies_around(&self, start: i64, end: i64) -> bool
        ensures { result ≡ is_some (last (through instant start (samples self.now))) && is_some (first (onward instant end (samples self.now))) }
    {
        self.log.last_at_or_before(start).is_some() && self.log.first_at_or_after(end).is_some()
    }

    // Whether a sample lies at or before the period's start, and one at or after its end.
    pub fn is_covered(&self, period: i64) -> bool
        ensures rule { result ≡ trace_covers (samples self.now) period }
        ensures meaning { result ≡ is_some (meaning self.now period) }
    {
        let Some((start, end)) = ends(period) else {
            return false;
        };
        self.lies_around(start, end)
    }
}
