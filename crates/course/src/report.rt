// What the program prints: a line wherever a piece begins, and the areas of the period by both methods.
use super::gross::period_areas;
use super::reading::Heading;
use power::day::PERIOD_SECONDS;
use power::piece::GrossPiece;
use power::pieces::Pieces;
use power::record::PowerRecord;
use quarter_hour::working::kilowatt_hours;
use settlement::area::Areas;

// The second at which a piece begins, and the piece; `next` becomes the second at which it ends.
fn begin(next: &mut i64, piece: GrossPiece) -> Option<(i64, GrossPiece)> {
    let second = *next;
    *next = second.saturating_add(i64::from(piece.width));
    Some((second, piece))
}

fn answer(set: bool) -> &'static str {
    if set { "yes" } else { "no" }
}

// A period's trace and its minutes, what is asked of them, and where they are printed.
#[derive(Drop)]
pub(crate) struct Report<'a, T, M> {
    pub(crate) rt: &'a HostRuntime,
    pub(crate) heading: &'a Heading,
    pub(crate) trace: &'a T,
    pub(crate) minutes: &'a M,
}

impl<T: PowerRecord, M: PowerRecord> Report<'_, T, M> {
    fn show_trace(&self, piece: Option<GrossPiece>) -> anyhow::Result<()> {
        match piece {
            Some(piece) => {
                let start = piece.start;
                let end = piece.end;
                let width = piece.width;
                let counts = answer(piece.counts);
                print!(self.rt; " {start:>9} {end:>9} {width:>5}  {counts:<6}")?;
            }
            None => print!(self.rt; "{:34}", "")?,
        }
        Ok(())
    }

    fn show_minute(&self, piece: Option<GrossPiece>) -> anyhow::Result<()> {
        match piece {
            Some(piece) => {
                let power = piece.start;
                let counts = answer(piece.counts);
                println!(self.rt; " | {power:>9}  {counts}")?;
            }
            None => println!(self.rt; " |")?,
        }
        Ok(())
    }

    // A line for each second at which a piece begins.
    fn show_pieces(&self) -> anyhow::Result<()> {
        let period = self.heading.period;
        let start = PERIOD_SECONDS.saturating_mul(period);
        let mut trace = Pieces::of(self.trace, period).scan(start, begin).peekable();
        let mut minutes = Pieces::of(self.minutes, period)
            .scan(start, begin)
            .peekable();
        for second in start..start.saturating_add(PERIOD_SECONDS) {
            let by_trace = trace.next_if(|(begins, _)| *begins == second);
            let by_minute = minutes.next_if(|(begins, _)| *begins == second);
            if by_trace.is_some() || by_minute.is_some() {
                print!(self.rt; "{second:>7}")?;
                self.show_trace(by_trace.map(|(_, piece)| piece))?;
                self.show_minute(by_minute.map(|(_, piece)| piece))?;
            }
        }
        Ok(())
    }

    fn show_areas(&self, method: &str, areas: Areas) -> anyhow::Result<()> {
        let upward = areas.upward;
        let downward = areas.downward;
        let idle = areas.idle;
        println!(self.rt; "{method:<8} {upward:>13} {downward:>13} {idle:>13}")?;
        Ok(())
    }

    // Whether a record covers the period.
    fn show_coverage<R: PowerRecord>(&self, method: &str, record: &R) -> anyhow::Result<()> {
        if !record.covers(self.heading.period) {
            println!(self.rt; "the period is not covered by the {method} method")?;
        }
        Ok(())
    }

    // The areas by the trace, by the minutes, and what the minutes hide.
    fn show_sums(&self) -> anyhow::Result<()> {
        let by_trace = period_areas(self.trace, self.heading.period, self.heading.level);
        let by_minute = period_areas(self.minutes, self.heading.period, self.heading.level);
        println!(self.rt; "")?;
        println!(self.rt; "halves          upward      downward          idle")?;
        self.show_areas("trace", by_trace)?;
        self.show_areas("minutes", by_minute)?;
        let hidden = Areas {
            upward: by_trace.upward.saturating_sub(by_minute.upward),
            downward: by_trace.downward.saturating_sub(by_minute.downward),
            idle: by_trace.idle.saturating_sub(by_minute.idle),
        };
        self.show_areas("hidden", hidden)?;
        let upward = kilowatt_hours(hidden.upward);
        let downward = kilowatt_hours(hidden.downward);
        println!(self.rt; "the minutes hide {upward} kWh upward and {downward} kWh downward")?;
        Ok(())
    }

    pub(crate) fn show(&self) -> anyhow::Result<()> {
        let period = self.heading.period;
        let level = self.heading.level.kilowatts;
        println!(self.rt; "period {period}, level {level} kW")?;
        self.show_coverage("trace", self.trace)?;
        self.show_coverage("minute", self.minutes)?;
        println!(self.rt; "")?;
        println!(self.rt; "         trace                            | minute")?;
        println!(self.rt; " second   from kW     to kW width  counts |        kW  counts")?;
        self.show_pieces()?;
        self.show_sums()
    }
}
