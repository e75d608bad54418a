// Works a quarter of an hour by the minute method, and holds each minute against a printed table.
#![tactic(auto)]

mod fault;
mod reading;
mod report;
#[cfg(test)]
mod tests;

use reading::read;
use report::show;
use std::io;
use std::process::ExitCode;

fn run(rt: &HostRuntime) -> anyhow::Result<()> {
    let text = io::read_to_string(rt.alloc(), rt.stdin())?;
    let quarter = read(text.as_str())?;
    show(rt, &quarter)
}

fn main(rt: HostRuntime) -> ExitCode {
    match run(&rt) {
        Ok(()) => ExitCode::SUCCESS,
        Err(error) => {
            let _ = eprintln!(rt; "worked_period: {error}");
            ExitCode::FAILURE
        }
    }
}
