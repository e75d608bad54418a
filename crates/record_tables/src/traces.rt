// Traces at the edges of the day, of the memory and of a period.
use super::answers::{piece, take};
use power::sample::Sample;
use trace_record::trace::TraceRecord;

const BLANK: Sample = Sample {
    instant: 0,
    power: 0,
    flag: false,
};

#[test]
fn refusals_in_their_sequence(rt: HostRuntime) {
    let mut memory = [BLANK; 2];
    let mut trace = TraceRecord::over(&mut memory, 900);
    // instant, power; the number of a refusal
    for (instant, power, answer) in [
        (-1, 0, Err(1)),
        (88_200, 1_000_001, Err(1)),
        (i64::MIN, 0, Err(1)),
        (0, 1_000_001, Err(2)),
        (0, -1_000_001, Err(2)),
        (0, -1_000_000, Ok(())),
        (0, 0, Err(3)),
        (-1, 0, Err(1)),
        (88_199, 1_000_000, Ok(())),
        (88_199, 0, Err(3)),
        (88_198, 1_000_001, Err(2)),
        (88_200, 0, Err(1)),
    ] {
        assert_eq!(rt; take(&mut trace, instant, power, true), answer);
    }
}

#[test]
fn a_full_memory_refuses_a_later_sample(rt: HostRuntime) {
    let mut one = [BLANK; 1];
    let mut trace = TraceRecord::over(&mut one, 900);
    assert_eq!(rt; take(&mut trace, 10, 1, true), Ok(()));
    assert_eq!(rt; take(&mut trace, 10, 1, true), Err(3));
    assert_eq!(rt; take(&mut trace, 11, 1, true), Err(4));
    let mut two = [BLANK; 2];
    let mut trace = TraceRecord::over(&mut two, 900);
    assert_eq!(rt; take(&mut trace, 10, 1, true), Ok(()));
    assert_eq!(rt; take(&mut trace, 11, 1, true), Ok(()));
    assert_eq!(rt; take(&mut trace, 12, 1, true), Err(4));
    assert_eq!(rt; take(&mut trace, 11, 1, true), Err(3));
    let mut none: [Sample; 0] = [];
    let mut trace = TraceRecord::over(&mut none, 900);
    assert_eq!(rt; take(&mut trace, 0, 0, true), Err(4));
}

#[test]
fn one_sample_covers_nothing(rt: HostRuntime) {
    let mut memory = [BLANK; 4];
    let mut trace = TraceRecord::over(&mut memory, 900);
    assert_eq!(rt; trace.is_covered(1), false);
    assert_eq!(rt; trace.point_at(900).is_some(), false);
    assert_eq!(rt; take(&mut trace, 900, 7, true), Ok(()));
    assert_eq!(rt; trace.is_covered(1), false);
    assert_eq!(rt; trace.piece_at(1, 0), None);
    assert_eq!(rt; trace.point_at(900).is_some(), true);
    assert_eq!(rt; trace.point_at(901).is_some(), false);
    assert_eq!(rt; take(&mut trace, 1_799, 7, true), Ok(()));
    assert_eq!(rt; trace.is_covered(1), false);
    assert_eq!(rt; take(&mut trace, 1_800, 7, true), Ok(()));
    assert_eq!(rt; trace.is_covered(1), true);
    assert_eq!(rt; trace.is_covered(2), false);
}

#[test]
fn a_gap_over_many_periods(rt: HostRuntime) {
    let mut memory = [BLANK; 2];
    let mut trace = TraceRecord::over(&mut memory, 900);
    assert_eq!(rt; take(&mut trace, 0, 0, true), Ok(()));
    assert_eq!(rt; take(&mut trace, 88_199, 882, true), Ok(()));
    for (period, covered) in [(-1, false), (0, false), (1, true), (96, true), (97, false)] {
        assert_eq!(rt; trace.is_covered(period), covered);
        assert_eq!(rt; trace.piece_at(period, 0).is_some(), covered);
        assert_eq!(rt; trace.piece_at(period, 1), None);
    }
    assert_eq!(rt; trace.piece_at(1, 0), piece(9, 18, 900, true));
    assert_eq!(rt; trace.piece_at(96, 0), piece(864, 873, 900, true));
    assert_eq!(rt; trace.piece_at(1, usize::MAX), None);
    assert_eq!(rt; trace.is_covered(i64::MAX), false);
}

#[test]
fn boundaries_and_flags(rt: HostRuntime) {
    let mut memory = [BLANK; 5];
    let mut trace = TraceRecord::over(&mut memory, 300);
    // before the start, inside, on the end: the start is interpolated, with the larger flag
    assert_eq!(rt; take(&mut trace, 899, 0, false), Ok(()));
    assert_eq!(rt; take(&mut trace, 901, -1, true), Ok(()));
    assert_eq!(rt; take(&mut trace, 1_201, 299, true), Ok(()));
    assert_eq!(rt; take(&mut trace, 1_502, 600, true), Ok(()));
    assert_eq!(rt; take(&mut trace, 1_800, -4, false), Ok(()));
    assert_eq!(rt; trace.piece_at(1, 0), piece(0, -1, 1, true));
    // as wide as the critical time, and one second wider
    assert_eq!(rt; trace.piece_at(1, 1), piece(-1, 299, 300, true));
    assert_eq!(rt; trace.piece_at(1, 2), piece(299, 600, 301, false));
    // the sample on the end is the point there, with its own flag
    assert_eq!(rt; trace.piece_at(1, 3), piece(600, -4, 298, false));
    assert_eq!(rt; trace.piece_at(1, 4), None);
}

#[test]
fn critical_times_are_cut(rt: HostRuntime) {
    // asked for; whether widths of 1, 2 and 897 s count
    for (asked, two, most) in [
        (i64::MIN, false, false),
        (0, false, false),
        (1, false, false),
        (2, true, false),
        (896, true, false),
        (897, true, true),
        (901, true, true),
        (i64::MAX, true, true),
    ] {
        let mut memory = [BLANK; 4];
        let mut trace = TraceRecord::over(&mut memory, asked);
        assert_eq!(rt; take(&mut trace, 900, 1, true), Ok(()));
        assert_eq!(rt; take(&mut trace, 901, 1, true), Ok(()));
        assert_eq!(rt; take(&mut trace, 903, 1, true), Ok(()));
        assert_eq!(rt; take(&mut trace, 1_800, 1, true), Ok(()));
        assert_eq!(rt; trace.piece_at(1, 0), piece(1, 1, 1, true));
        assert_eq!(rt; trace.piece_at(1, 1), piece(1, 1, 2, two));
        assert_eq!(rt; trace.piece_at(1, 2), piece(1, 1, 897, most));
    }
}
