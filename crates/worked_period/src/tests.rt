// Bad input is answered with its line and its fault.
use super::fault::Fault;
use super::reading::read;
use quarter_hour::draft::Incomplete;
use statements::fault::{FaultAt, Malformed};

#[test]
fn a_bad_line_is_named(rt: HostRuntime) {
    let table = [
        ("hour 1", 1, Fault::UnknownWord),
        ("\n# a comment\nmeter", 3, Malformed::MissingNumber.into()),
        ("minute 1 2", 1, Malformed::MissingNumber.into()),
        ("meter 1.5", 1, Malformed::NotANumber.into()),
        ("meter 1 2", 1, Malformed::TooManyNumbers.into()),
        ("meter 300001", 1, Fault::OutOfBounds),
        ("meter -1", 1, Fault::OutOfBounds),
        ("instructed -300001", 1, Fault::OutOfBounds),
        ("minute 1000001 0 0", 1, Fault::OutOfBounds),
        ("minute 0 -1 0", 1, Fault::OutOfBounds),
    ];
    for (text, line, fault_there) in table {
        assert_eq!(rt;
            read(text).err(),
            Some(FaultAt {
                line,
                fault: fault_there,
            }),
            "{}",
            text
        );
    }
}

#[test]
fn what_is_wanting_is_named(rt: HostRuntime) {
    let table = [
        ("", 1, Incomplete::NoMeter),
        ("meter 0", 2, Incomplete::NoInstructed),
        (
            "meter 300000\ninstructed 0\nminute 0 0 0",
            4,
            Incomplete::FewMinutes,
        ),
        ("meter 1\nmeter 1", 2, Incomplete::MeterTwice),
        (
            "instructed 1\n\ninstructed 1",
            3,
            Incomplete::InstructedTwice,
        ),
    ];
    for (text, line, incomplete) in table {
        let there = FaultAt {
            line,
            fault: Fault::Draft(incomplete),
        };
        assert_eq!(rt; read(text).err(), Some(there), "{}", text);
    }
}
