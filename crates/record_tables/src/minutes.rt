// Minutes at their edges, in a full memory, and without samples.
use super::answers::{piece, take};
use minute_record::minute::Minute;
use minute_record::minute_record::MinuteRecord;
use power::piece::GrossPiece;

const BLANK: Minute = Minute {
    minute: 0,
    sum: 0,
    count: 0,
    flag: false,
};

fn flat(power: i32, counts: bool) -> Option<GrossPiece> {
    piece(power, power, 60, counts)
}

#[test]
fn refusals_in_their_sequence(rt: HostRuntime) {
    let mut memory = [BLANK; 3];
    let mut minutes = MinuteRecord::over(&mut memory);
    // instant, power; the number of a refusal: not later goes by the instant, also inside a minute
    for (instant, power, answer) in [
        (-1, 0, Err(1)),
        (88_200, 1_000_001, Err(1)),
        (0, 1_000_001, Err(2)),
        (0, -1_000_001, Err(2)),
        (0, 0, Ok(())),
        (0, 0, Err(3)),
        (59, 0, Ok(())),
        (58, 0, Err(3)),
        (60, 0, Ok(())),
        (59, 0, Err(3)),
        (88_140, 0, Ok(())),
        (88_140, 0, Err(3)),
        (88_199, 1_000_000, Ok(())),
        (88_199, 0, Err(3)),
    ] {
        assert_eq!(rt; take(&mut minutes, instant, power, true), answer);
    }
}

#[test]
fn the_last_minute_grows_in_a_full_memory(rt: HostRuntime) {
    let mut memory = [BLANK; 1];
    let mut minutes = MinuteRecord::over(&mut memory);
    assert_eq!(rt; take(&mut minutes, 119, 1, true), Ok(()));
    assert_eq!(rt; take(&mut minutes, 120, 1, true), Err(4));
    let mut memory = [BLANK; 2];
    let mut minutes = MinuteRecord::over(&mut memory);
    assert_eq!(rt; take(&mut minutes, 59, 1, true), Ok(()));
    for instant in 60..120 {
        assert_eq!(rt; take(&mut minutes, instant, 1_000_000, true), Ok(()));
    }
    assert_eq!(rt; take(&mut minutes, 120, 1, true), Err(4));
    assert_eq!(rt; take(&mut minutes, 119, 1, true), Err(3));
    let mut none: [Minute; 0] = [];
    let mut minutes = MinuteRecord::over(&mut none);
    assert_eq!(rt; take(&mut minutes, 0, 0, true), Err(4));
}

#[test]
fn means_go_to_the_nearest(rt: HostRuntime) {
    // two samples of a minute; their mean
    for (first, second, mean) in [
        (-1, 0, 0),
        (0, 1, 1),
        (-2, -1, -1),
        (-3, -2, -2),
        (5, 5, 5),
        (-1_000_000, -1_000_000, -1_000_000),
        (1_000_000, -1_000_000, 0),
    ] {
        let mut memory = [BLANK; 4];
        let mut minutes = MinuteRecord::over(&mut memory);
        assert_eq!(rt; take(&mut minutes, 900, first, true), Ok(()));
        assert_eq!(rt; take(&mut minutes, 959, second, true), Ok(()));
        assert_eq!(rt; take(&mut minutes, 1_800, 0, true), Ok(()));
        assert_eq!(rt; take(&mut minutes, 1_860, 0, true), Ok(()));
        assert_eq!(rt; minutes.piece_at(1, 0), flat(mean, true));
    }
}

#[test]
fn coverage_wants_two_minutes_after(rt: HostRuntime) {
    let mut memory = [BLANK; 8];
    let mut minutes = MinuteRecord::over(&mut memory);
    assert_eq!(rt; take(&mut minutes, 959, 30, true), Ok(()));
    assert_eq!(rt; minutes.is_covered(1), false);
    assert_eq!(rt; take(&mut minutes, 1_859, 60, true), Ok(()));
    assert_eq!(rt; minutes.is_covered(1), false);
    assert_eq!(rt; minutes.piece_at(1, 0), None);
    assert_eq!(rt; take(&mut minutes, 1_860, 60, false), Ok(()));
    assert_eq!(rt; minutes.is_covered(1), true);
    assert_eq!(rt; minutes.is_covered(0), false);
    assert_eq!(rt; minutes.is_covered(2), false);
    // minute 15 is recorded; the others lie on the way from 30 kW at minute 15 to 60 kW at minute 30
    for (place, power) in [(0, 30), (1, 32), (7, 44), (8, 46), (14, 58)] {
        assert_eq!(rt; minutes.piece_at(1, place), flat(power, true));
    }
    assert_eq!(rt; minutes.piece_at(1, 15), None);
    assert_eq!(rt; minutes.piece_at(1, usize::MAX), None);
    assert_eq!(rt; minutes.is_covered(i64::MAX), false);
    assert_eq!(rt; minutes.is_covered(i64::MIN), false);
}

#[test]
fn a_minute_counts_where_every_flag_is_set(rt: HostRuntime) {
    let mut memory = [BLANK; 6];
    let mut minutes = MinuteRecord::over(&mut memory);
    assert_eq!(rt; take(&mut minutes, 900, 10, true), Ok(()));
    assert_eq!(rt; take(&mut minutes, 930, 10, false), Ok(()));
    assert_eq!(rt; take(&mut minutes, 1_020, 10, true), Ok(()));
    assert_eq!(rt; take(&mut minutes, 1_140, 10, true), Ok(()));
    assert_eq!(rt; take(&mut minutes, 1_800, 10, true), Ok(()));
    assert_eq!(rt; take(&mut minutes, 1_860, 10, true), Ok(()));
    // recorded with a flag not set; between it and a set one; recorded; between two set ones
    for (place, counts) in [
        (0, false),
        (1, false),
        (2, true),
        (3, true),
        (4, true),
        (9, true),
    ] {
        assert_eq!(rt; minutes.piece_at(1, place), flat(10, counts));
    }
}
