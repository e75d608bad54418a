// The trace record as a power record.
ghost use Rattle.std.specs.Prelude.{◌≡◌};
ghost use Rattle.trace_record.specs.Records.{meaning, Takes, trace_laws};

use super::trace::TraceRecord;
use power::piece::GrossPiece;
use power::record::PowerRecord;
use power::refusal::Refusal;
use power::sample::Sample;

impl<'a> PowerRecord for TraceRecord<'a> {
    const K: u32 = 900;

    ghost course = { meaning };

    ghost unequal = { 900 };

    ghost laws = { trace_laws };

    ghost takes = { Takes };

    fn unequal_bound() -> u32
        ensures { result ≡ 900 }
    {
        Self::K
    }

    fn take(&mut self, sample: Sample) -> Result<(), Refusal> {
        self.take_sample(sample)
    }

    fn covers(&self, period: i64) -> bool {
        self.is_covered(period)
    }

    fn piece(&self, period: i64, place: usize) -> Option<GrossPiece> {
        self.piece_at(period, place)
    }
}
