// How a trace record begins, and how it takes samples.
ghost use Rattle.std.specs.Prelude.{◌≡◌, ◌≤◌, []};
ghost use Rattle.keyed_log.specs.Logs.{memory as slots_of};
ghost use Rattle.power.specs.Course.{Keeps};
ghost use Rattle.trace_record.specs.Taking.{critical_time};
ghost use Rattle.trace_record.specs.Records.{samples, meaning, Takes};

use super::trace::TraceRecord;
use keyed_log::log::Log;
use power::day::judge;
use power::refusal::Refusal;
use power::sample::Sample;

// s
const LEAST_CRITICAL: i64 = 1;

const MOST_CRITICAL: i64 = 900;

// A critical time below 1 s is used as 1, one above 900 s as 900.
fn cut_critical(asked: i64) -> u16
    ensures value { result ≡ critical_time asked }
    ensures short { result ≤ 900 }
{
    asked.clamp(LEAST_CRITICAL, MOST_CRITICAL) as u16
}

impl<'a> TraceRecord<'a> {
    // A record without samples, for as many as the memory has slots, with a critical time in seconds.
    pub fn over(memory: &'a mut [Sample], critical: i64) -> Self
        ensures none { samples result ≡ [] }
        ensures memory { slots_of result.log ≡ memory.old }
        ensures critical { result.critical ≡ critical_time critical }
    {
        let critical = cut_critical(critical);
        TraceRecord {
            log: Log::over(memory),
            critical,
        }
    }

    // Judges the sample, and appends it; `take_sample` states what this leaves of the meaning.
    fn enter(&mut self, sample: Sample) -> Result<(), Refusal>
        ensures { Takes self.old sample result self.new }
    {
        judge(sample)?;
        self.log.append(sample)?;
        Ok(())
    }

    // Takes a sample later than all before it.
    pub fn take_sample(&mut self, sample: Sample) -> Result<(), Refusal>
        ensures takes { Takes self.old sample result self.new }
        ensures keeps { Keeps result (meaning self.old) (meaning self.new) }
    {
        self.enter(sample)
    }
}
