// How a minute record begins, and how it takes samples.
ghost use Rattle.std.specs.Prelude.{◌≡◌, List, [], None};
ghost use Rattle.keyed_log.specs.Logs.{memory as slots_of};
ghost use Rattle.keyed_log.specs.Writing.{appended};
ghost use Rattle.power.specs.Course.{Keeps};
ghost use Rattle.minute_record.specs.MinuteRecords.{minutes, meaning, Takes};
ghost use Rattle.minute_record.specs.Recorded.{Recorded};
ghost use Rattle.minute_record.specs.Taking.{is_later};

use super::entering::minute_of;
use super::minute::Minute;
use super::minute_record::MinuteRecord;
use keyed_log::log::Log;
use power::day::judge;
use power::refusal::Refusal;
use power::sample::Sample;

impl<'a> MinuteRecord<'a> {
    // A record that has taken no sample, for as many minutes as the memory has slots.
    pub fn over(memory: &'a mut [Minute]) -> Self
        ensures none { minutes result ≡ [] }
        ensures memory { slots_of result.log ≡ memory.old }
        ensures latest { result.latest ≡ None }
        ensures records { Recorded [] (minutes result) }
    {
        MinuteRecord {
            log: Log::over(memory),
            latest: None,
        }
    }

    // Whether the instant is later than the last one taken, if there is one.
    fn is_later(&self, instant: i64) -> bool
        ensures { result ≡ is_later self.now.latest instant }
    {
        self.latest.is_none_or(|latest| latest < instant)
    }

    // Adds the sample to its minute. Only a new minute needs a further entry.
    pub fn take_sample(&mut self, sample: Sample) -> Result<(), Refusal>
        ensures takes { Takes self.old sample result self.new }
        ensures keeps { Keeps result (meaning self.old) (meaning self.new) }
        ensures records { (ss : List Sample) → Recorded ss (minutes self.old) → Recorded (appended result ss sample) (minutes self.new) }
    {
        judge(sample)?;
        let true = self.is_later(sample.instant) else {
            return Err(Refusal::NotLater);
        };
        match self.log.last() {
            Some(last) if last.minute == minute_of(sample.instant) => {
                self.log.replace_last(last.grown(sample))?
            }
            _ => self.log.append(Minute::begun(sample))?,
        }
        self.latest = Some(sample.instant);
        Ok(())
    }
}
