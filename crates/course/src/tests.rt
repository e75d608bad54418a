// Bad input is answered with its line and its fault.
use super::NO_SAMPLE;
use super::fault::Fault;
use super::reading::{fill, read_heading};
use power::refusal::Refusal;
use statements::fault::{FaultAt, Malformed};
use trace_record::trace::TraceRecord;

#[test]
fn a_bad_line_is_named(rt: HostRuntime) {
    let table = [
        ("hour 1", 1, Fault::UnknownWord),
        ("\n# a comment\nperiod", 3, Malformed::MissingNumber.into()),
        ("sample 1 2", 1, Malformed::MissingNumber.into()),
        ("critical 1.5", 1, Malformed::NotANumber.into()),
        ("period 1 2", 1, Malformed::TooManyNumbers.into()),
        ("sample 1 2 2", 1, Fault::NeitherSetNorNot),
        ("period 0", 1, Fault::NoSuchPeriod),
        ("period 97", 1, Fault::NoSuchPeriod),
        ("instructed 300001", 1, Fault::EnergyOutOfBounds),
        ("period 96\nperiod 96", 2, Fault::SaidTwice),
        ("critical 1\ncritical 1", 2, Fault::SaidTwice),
        ("", 1, Fault::NoPeriod),
        ("period 1\n", 2, Fault::NoInstructed),
    ];
    for (text, line, fault_there) in table {
        assert_eq!(rt;
            read_heading(text).err(),
            Some(FaultAt {
                line,
                fault: fault_there,
            }),
            "{}",
            text
        );
    }
}

#[test]
fn a_refused_sample_is_named(rt: HostRuntime) {
    let table = [
        ("period 1\nsample -1 0 1", 2, Refusal::NoSuchInstant),
        (
            "sample 0 0 0\nsample 88199 1000001 1",
            2,
            Refusal::PowerOutOfBounds,
        ),
        ("sample 5 0 1\n\nsample 5 0 1", 3, Refusal::NotLater),
        ("sample 1 0 1\nsample 2 0 1\nsample 3 0 1", 3, Refusal::Full),
    ];
    for (text, line, refusal) in table {
        let mut memory = [NO_SAMPLE; 2];
        let mut trace = TraceRecord::over(&mut memory, 900);
        assert_eq!(rt;
            fill(&mut trace, text).err(),
            Some(FaultAt {
                line,
                fault: Fault::Taking(refusal),
            }),
            "{}",
            text
        );
    }
}
