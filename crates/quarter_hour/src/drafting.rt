// What a draft does.
ghost use Rattle.std.specs.Prelude.{◌≡◌};
ghost use Rattle.quarter_hour.specs.Drafting.{NothingSaid, taking, answered, drafted, finishing};

use super::draft::{Draft, Incomplete, QuarterHour, Statement};
use super::minute::PrintedMinute;
use settlement::powers::NetPower;

impl Draft {
    pub fn new() -> Self
        ensures { NothingSaid result }
    {
        let net = NetPower { kilowatts: 0 };
        let minute = PrintedMinute {
            net,
            upward: 0,
            downward: 0,
        };
        let minutes = [minute; 15];
        Draft {
            metered: None,
            level: None,
            minutes,
            count: 0,
        }
    }

    // One statement more; a refused one leaves the draft as it was.
    pub fn take(&mut self, statement: Statement) -> Result<(), Incomplete>
        ensures answer { result ≡ answered (taking self.old statement) }
        ensures after { self.new ≡ drafted self.old (taking self.old statement) }
    {
        match statement {
            Statement::Meter(metered) => {
                if self.metered.is_some() {
                    return Err(Incomplete::MeterTwice);
                }
                self.metered = Some(metered);
            }
            Statement::Instructed(level) => {
                if self.level.is_some() {
                    return Err(Incomplete::InstructedTwice);
                }
                self.level = Some(level);
            }
            Statement::Minute(minute) => {
                if self.count >= 15 {
                    return Err(Incomplete::SixteenthMinute);
                }
                self.minutes[self.count] = minute;
                self.count += 1;
            }
        }
        Ok(())
    }

    // The whole, where nothing is wanting.
    pub fn finish(self) -> Result<QuarterHour, Incomplete>
        ensures { result ≡ finishing self }
    {
        let metered = self.metered.ok_or(Incomplete::NoMeter)?;
        let level = self.level.ok_or(Incomplete::NoInstructed)?;
        if self.count < 15 {
            return Err(Incomplete::FewMinutes);
        }
        let minutes = self.minutes;
        Ok(QuarterHour {
            metered,
            level,
            minutes,
        })
    }
}
