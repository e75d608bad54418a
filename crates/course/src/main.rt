// Shows a period's pieces by the trace method and by the minute method, side by side, and what each has above and below the level.
#![tactic(auto)]

mod fault;
mod gross;
mod reading;
mod report;
#[cfg(test)]
mod tests;

use minute_record::minute::{MINUTE_SECONDS, Minute};
use minute_record::minute_record::MinuteRecord;
use power::day::LAST_INSTANT;
use power::sample::Sample;
use reading::{fill, read_heading};
use report::Report;
use std::io;
use std::process::ExitCode;
use trace_record::trace::TraceRecord;

// A slot for each second of the day, and one for each minute: no sample of a day finds the memory full.
const SECONDS: usize = LAST_INSTANT as usize + 1;

const MINUTES: usize = SECONDS / MINUTE_SECONDS as usize;

const NO_SAMPLE: Sample = Sample {
    instant: 0,
    power: 0,
    flag: false,
};

const NO_MINUTE: Minute = Minute {
    minute: 0,
    sum: 0,
    count: 0,
    flag: false,
};

fn run(rt: &HostRuntime) -> anyhow::Result<()> {
    let text = io::read_to_string(rt.alloc(), rt.stdin())?;
    let heading = read_heading(text.as_str())?;
    let mut seconds = vec![in rt.alloc(); NO_SAMPLE; SECONDS]?;
    let mut minutes = vec![in rt.alloc(); NO_MINUTE; MINUTES]?;
    let mut trace = TraceRecord::over(seconds.as_mut_slice(), heading.critical);
    let mut by_minute = MinuteRecord::over(minutes.as_mut_slice());
    fill(&mut trace, text.as_str())?;
    fill(&mut by_minute, text.as_str())?;
    Report {
        rt,
        heading: &heading,
        trace: &trace,
        minutes: &by_minute,
    }
    .show()
}

fn main(rt: HostRuntime) -> ExitCode {
    match run(&rt) {
        Ok(()) => ExitCode::SUCCESS,
        Err(error) => {
            let _ = eprintln!(rt; "course: {error}");
            ExitCode::FAILURE
        }
    }
}
