// A sample as part of its minute's entry.
ghost use Rattle.std.specs.Prelude.{◌≡◌, true};
ghost use Rattle.power.specs.Day.{gross_bounds};
ghost use Rattle.minute_record.specs.Minutes.{minute_of, Growing};
ghost use Rattle.minute_record.specs.Taking.{grown as grown_by, begun as begun_by};

use super::minute::{MINUTE_SECONDS, Minute};
use arith::division::divide;
use arith::divisor::Divisor;
use power::sample::Sample;

pub(crate) fn minute_of(instant: i64) -> i64
    ensures { result ≡ minute_of instant }
{
    let by = Divisor {
        value: MINUTE_SECONDS as u64,
    };
    divide(instant, by).0
}

impl Minute {
    // The minute of the sample, with that sample alone.
    pub(crate) fn begun(sample: Sample) -> Self
        ensures { result ≡ begun_by sample }
    {
        Minute {
            minute: minute_of(sample.instant),
            sum: sample.power,
            count: 1,
            flag: sample.flag,
        }
    }

    // The same minute with one sample more.
    pub(crate) fn grown(self, sample: Sample) -> Self
        requires small { Growing self }
        requires bounds { gross_bounds sample.power ≡ true }
        ensures { result ≡ grown_by self sample }
    {
        Minute {
            minute: self.minute,
            sum: self.sum + sample.power,
            count: self.count + 1,
            flag: self.flag & sample.flag,
        }
    }
}
