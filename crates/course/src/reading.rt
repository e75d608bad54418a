// The input: lines of a word and its whole numbers. Empty lines and lines that begin with # are passed over.
//     period T                    the period to show
//     instructed KWH              its instructed energy; the level is four times that, in kW
//     critical S                  the critical time; 900 without such a line
//     sample SECOND KW FLAG       a sample: instant, gross power, control flag (0 or 1); later than all before it
use super::fault::Fault;
use power::day::is_period;
use power::record::PowerRecord;
use power::sample::Sample;
use settlement::powers::Level;
use statements::fault::FaultAt;
use statements::words::{end, number, opening};
use std::str::SplitWhitespace;

// s
const USUAL_CRITICAL: i64 = 900;

#[derive(Clone, Copy)]
enum Statement {
    Period(i64),
    Instructed(Level),
    Critical(i64),
    Sample(Sample),
}

// What the input asks for, besides its samples.
#[derive(Clone, Copy)]
pub(crate) struct Heading {
    pub(crate) period: i64,
    pub(crate) level: Level,
    pub(crate) critical: i64,
}

fn period(words: &mut SplitWhitespace) -> Result<Statement, Fault> {
    let period = number(words)?;
    if is_period(period) {
        Ok(Statement::Period(period))
    } else {
        Err(Fault::NoSuchPeriod)
    }
}

fn flag(words: &mut SplitWhitespace) -> Result<bool, Fault> {
    match number(words)? {
        0 => Ok(false),
        1 => Ok(true),
        _ => Err(Fault::NeitherSetNorNot),
    }
}

fn sample(words: &mut SplitWhitespace) -> Result<Statement, Fault> {
    Ok(Statement::Sample(Sample {
        instant: number(words)?,
        power: number(words)?,
        flag: flag(words)?,
    }))
}

// What a line says; none where it is empty or a comment.
fn stated(line: &str) -> Result<Option<Statement>, Fault> {
    let Some((word, mut words)) = opening(line) else {
        return Ok(None);
    };
    let statement = match word {
        "period" => period(&mut words)?,
        "instructed" => Statement::Instructed(Level::new(number(&mut words)?).map_err(
            |_| Fault::EnergyOutOfBounds,
        )?),
        "critical" => Statement::Critical(number(&mut words)?),
        "sample" => sample(&mut words)?,
        _ => return Err(Fault::UnknownWord),
    };
    end(words)?;
    Ok(Some(statement))
}

// What was said of the heading so far.
#[derive(Clone, Copy, Default)]
struct Said {
    period: Option<i64>,
    level: Option<Level>,
    critical: Option<i64>,
}

// Says a value; a second one is a fault.
fn say<T: Copy>(said: &mut Option<T>, value: T) -> Result<(), Fault> {
    match said.replace(value) {
        None => Ok(()),
        Some(_) => Err(Fault::SaidTwice),
    }
}

impl Said {
    fn take(&mut self, line: &str) -> Result<(), Fault> {
        match stated(line)? {
            Some(Statement::Period(period)) => say(&mut self.period, period),
            Some(Statement::Instructed(level)) => say(&mut self.level, level),
            Some(Statement::Critical(critical)) => say(&mut self.critical, critical),
            Some(Statement::Sample(_)) | None => Ok(()),
        }
    }

    // The heading, where nothing is wanting.
    fn finish(self) -> Result<Heading, Fault> {
        Ok(Heading {
            period: self.period.ok_or(Fault::NoPeriod)?,
            level: self.level.ok_or(Fault::NoInstructed)?,
            critical: self.critical.unwrap_or(USUAL_CRITICAL),
        })
    }
}

// The heading, with every line read.
pub(crate) fn read_heading(text: &str) -> Result<Heading, FaultAt<Fault>> {
    let mut said = Said::default();
    let mut behind = 1usize;
    for (line, words) in (1..).zip(text.lines()) {
        said.take(words).map_err(|fault| FaultAt { line, fault })?;
        behind = line.saturating_add(1);
    }
    said.finish().map_err(|fault| FaultAt {
        line: behind,
        fault,
    })
}

fn take<R: PowerRecord>(record: &mut R, line: &str) -> Result<(), Fault> {
    if let Some(Statement::Sample(sample)) = stated(line)? {
        record.take(sample)?;
    }
    Ok(())
}

// Lets the record take the samples of the text; the first that is refused ends it.
pub(crate) fn fill<R: PowerRecord>(record: &mut R, text: &str) -> Result<(), FaultAt<Fault>> {
    for (line, words) in (1..).zip(text.lines()) {
        take(record, words).map_err(|fault| FaultAt { line, fault })?;
    }
    Ok(())
}
