// A power record: for each period not covered, or a course of pieces.
ghost use Rattle.std.specs.Prelude.{◌≡◌, ℕ, ℤ, is_some};
ghost use Rattle.std.specs.List.{slice_get};
ghost use Rattle.power.specs.declared.sample.Sample.{Sample as SampleTaken};
ghost use Rattle.power.specs.Taking.{Answer};
ghost use Rattle.power.specs.Course.{Course, RecordLaws, Keeps, listed};

use super::piece::GrossPiece;
use super::refusal::Refusal;
use super::sample::Sample;

pub trait PowerRecord {
    // At most K pieces of a period have unequal ends.
    const K: u32;

    // What the record means for a period.
    ghost course: { Self → ℤ → Course };

    // K, for the laws.
    ghost unequal: { ℕ };

    // What an implementation shows of every record of its kind.
    ghost laws: { RecordLaws course unequal };

    // What taking a sample answers and leaves: each kind of record has its own rule.
    ghost takes: { Self → SampleTaken → Answer → Self → Type 0 };

    // Answers K.
    fn unequal_bound() -> u32
        ensures { result ≡ unequal };

    // A refusal changes no period's meaning, an acceptance no covered period's.
    fn take(&mut self, sample: Sample) -> Result<(), Refusal>
        ensures keeps { Keeps result (course self.old) (course self.new) }
        ensures takes { takes self.old sample result self.new };

    fn covers(&self, period: i64) -> bool
        ensures { result ≡ is_some (course self.now period) };

    // The period's piece at a place from 0; none past the last, and none where the period is not covered.
    fn piece(&self, period: i64, place: usize) -> Option<GrossPiece>
        ensures { result ≡ slice_get (listed (course self.now period)) place };
}
