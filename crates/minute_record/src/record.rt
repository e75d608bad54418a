// The minute record as a power record.
ghost use Rattle.std.specs.Prelude.{◌≡◌};
ghost use Rattle.minute_record.specs.MinuteRecords.{meaning, Takes, minute_laws};

use super::minute_record::MinuteRecord;
use power::piece::GrossPiece;
use power::record::PowerRecord;
use power::refusal::Refusal;
use power::sample::Sample;

impl<'a> PowerRecord for MinuteRecord<'a> {
    // Every piece is flat.
    const K: u32 = 0;

    ghost course = { meaning };

    ghost unequal = { 0 };

    ghost laws = { minute_laws };

    ghost takes = { Takes };

    fn unequal_bound() -> u32
        ensures { result ≡ 0 }
    {
        Self::K
    }

    fn take(&mut self, sample: Sample) -> Result<(), Refusal> {
        self.take_sample(sample)
    }

    fn covers(&self, period: i64) -> bool {
        self.is_covered(period)
    }

    fn piece(&self, period: i64, place: usize) -> Option<GrossPiece> {
        self.piece_at(period, place)
    }
}
