// A log at its ends: empty, full, between its keys.
use keyed_log::log::Log;
use keyed_log::refusal::Refusal;
use power::sample::Sample;

fn entry(instant: i64, power: i64) -> Sample {
    Sample {
        instant,
        power,
        flag: true,
    }
}

fn number(answer: Result<(), Refusal>) -> Result<(), u32> {
    answer.map_err(Refusal::number)
}

fn power(entry: Option<Sample>) -> Option<i64> {
    entry.map(|sample| sample.power)
}

#[test]
fn an_empty_log(rt: HostRuntime) {
    let mut slots = [entry(5, 5); 3];
    let mut log = Log::over(&mut slots);
    assert_eq!(rt; log.count(), 0);
    assert_eq!(rt; log.at(0), None);
    assert_eq!(rt; log.last(), None);
    assert_eq!(rt; log.last_at_or_before(i64::MAX), None);
    assert_eq!(rt; log.first_at_or_after(i64::MIN), None);
    assert_eq!(rt; log.between(i64::MIN, i64::MAX).len(), 0);
    assert_eq!(rt; number(log.replace_last(entry(5, 1))), Err(3));
    assert_eq!(rt; log.count(), 0);
}

#[test]
fn appending_and_replacing(rt: HostRuntime) {
    let mut slots = [entry(0, 0); 3];
    let mut log = Log::over(&mut slots);
    assert_eq!(rt; number(log.append(entry(-7, 1))), Ok(()));
    assert_eq!(rt; number(log.append(entry(-7, 2))), Err(3));
    assert_eq!(rt; number(log.append(entry(-8, 2))), Err(3));
    assert_eq!(rt; number(log.replace_last(entry(-6, 2))), Err(3));
    assert_eq!(rt; number(log.replace_last(entry(-7, 3))), Ok(()));
    assert_eq!(rt; power(log.at(0)), Some(3));
    assert_eq!(rt; number(log.append(entry(0, 4))), Ok(()));
    assert_eq!(rt; number(log.append(entry(10, 5))), Ok(()));
    // full: a key that does not rise is refused by 3 all the same
    assert_eq!(rt; number(log.append(entry(10, 6))), Err(3));
    assert_eq!(rt; number(log.append(entry(11, 6))), Err(4));
    assert_eq!(rt; number(log.replace_last(entry(10, 7))), Ok(()));
    assert_eq!(rt; log.count(), 3);
    assert_eq!(rt; power(log.last()), Some(7));
    assert_eq!(rt; power(log.at(3)), None);
}

#[test]
fn searching(rt: HostRuntime) {
    let mut slots = [entry(0, 0); 5];
    let mut log = Log::over(&mut slots);
    for key in [10, 20, 30, 40] {
        assert_eq!(rt; number(log.append(entry(key, key))), Ok(()));
    }
    // number; last at or before it, first at or after it; entries through it, from it on
    for (n, before, after, through, onward) in [
        (i64::MIN, None, Some(10), 0, 4),
        (9, None, Some(10), 0, 4),
        (10, Some(10), Some(10), 1, 4),
        (11, Some(10), Some(20), 1, 3),
        (25, Some(20), Some(30), 2, 2),
        (40, Some(40), Some(40), 4, 1),
        (41, Some(40), None, 4, 0),
        (i64::MAX, Some(40), None, 4, 0),
    ] {
        assert_eq!(rt; power(log.last_at_or_before(n)), before);
        assert_eq!(rt; power(log.first_at_or_after(n)), after);
        assert_eq!(rt; log.through(n).len(), through);
        assert_eq!(rt; log.onward(n).len(), onward);
    }
    for (a, b, count) in [
        (10, 40, 2),
        (9, 41, 4),
        (10, 20, 0),
        (40, 10, 0),
        (20, 20, 0),
        (19, 21, 1),
    ] {
        assert_eq!(rt; log.between(a, b).len(), count);
    }
}
