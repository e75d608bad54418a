// The input: lines of a word and its whole numbers. Empty lines and lines that begin with # are passed over.
//     meter KWH                   the certified meter
//     instructed KWH              the instructed energy
//     minute KW KWH KWH           net power, printed upward and downward energy; fifteen such lines
use super::fault::Fault;
use quarter_hour::draft::{Draft, QuarterHour, Statement};
use quarter_hour::minute::PrintedMinute;
use settlement::metered::Metered;
use settlement::powers::{Level, NetPower};
use statements::fault::FaultAt;
use statements::words::{end, number, opening};
use std::str::SplitWhitespace;

fn energy(words: &mut SplitWhitespace) -> Result<u32, Fault> {
    u32::try_from(number(words)?).map_err(|_| Fault::OutOfBounds)
}

fn minute(words: &mut SplitWhitespace) -> Result<Statement, Fault> {
    Ok(Statement::Minute(PrintedMinute {
        net: NetPower::new(number(words)?).ok_or(Fault::OutOfBounds)?,
        upward: energy(words)?,
        downward: energy(words)?,
    }))
}

// What a line says; none where it is empty or a comment.
fn statement(line: &str) -> Result<Option<Statement>, Fault> {
    let Some((word, mut words)) = opening(line) else {
        return Ok(None);
    };
    let statement = match word {
        "meter" => {
            Statement::Meter(Metered::new(number(&mut words)?).map_err(|_| Fault::OutOfBounds)?)
        }
        "instructed" => {
            Statement::Instructed(Level::new(number(&mut words)?).map_err(|_| Fault::OutOfBounds)?)
        }
        "minute" => minute(&mut words)?,
        _ => return Err(Fault::UnknownWord),
    };
    end(words)?;
    Ok(Some(statement))
}

fn take(draft: &mut Draft, line: &str) -> Result<(), Fault> {
    if let Some(statement) = statement(line)? {
        draft.take(statement)?;
    }
    Ok(())
}

pub(crate) fn read(text: &str) -> Result<QuarterHour, FaultAt<Fault>> {
    let mut draft = Draft::new();
    let mut behind = 1usize;
    for (line, words) in (1..).zip(text.lines()) {
        take(&mut draft, words).map_err(|fault| FaultAt { line, fault })?;
        behind = line.saturating_add(1);
    }
    draft.finish().map_err(|incomplete| FaultAt {
        line: behind,
        fault: Fault::Draft(incomplete),
    })
}
