// Floor, rest and nearest: zero, both signs, halves, the ends of 64 bits.
use arith::division::{divide, nearest};
use arith::divisor::Divisor;
use std::test::Fail;

#[test]
fn floors(rt: HostRuntime) -> Result<(), Fail> {
    // dividend, divisor, floor, rest
    for (a, by, floor, rest) in [
        (0, 1, 0, 0),
        (0, 7, 0, 0),
        (6, 3, 2, 0),
        (-6, 3, -2, 0),
        (7, 2, 3, 1),
        (-7, 2, -4, 1),
        (-1, 2, -1, 1),
        (-7, 3, -3, 2),
        (-8, 3, -3, 1),
        (1, i64::MAX, 0, 1),
        (-1, i64::MAX, -1, 9_223_372_036_854_775_806),
        (i64::MIN, 1, i64::MIN, 0),
        (i64::MAX, 1, i64::MAX, 0),
        (i64::MIN, 2, -4_611_686_018_427_387_904, 0),
        (i64::MAX, 2, 4_611_686_018_427_387_903, 1),
        (i64::MIN, i64::MAX, -2, 9_223_372_036_854_775_806),
        (i64::MAX, i64::MAX, 1, 0),
    ] {
        let by = Divisor::new(by).ok_or("no divisor")?;
        assert_eq!(rt; divide(a, by), (floor, rest));
    }
    Ok(())
}

#[test]
fn nearests(rt: HostRuntime) -> Result<(), Fail> {
    // dividend, divisor, nearest
    for (a, by, value) in [
        (0, 1, 0),
        (0, 2, 0),
        (1, 2, 1),
        (-1, 2, 0),
        (3, 2, 2),
        (-3, 2, -1),
        (7, 3, 2),
        (-7, 3, -2),
        (-8, 3, -3),
        (4, 10, 0),
        (5, 10, 1),
        (6, 10, 1),
        (-4, 10, 0),
        (-5, 10, 0),
        (-6, 10, -1),
        (i64::MIN, 1, i64::MIN),
        (i64::MAX, 1, i64::MAX),
        (i64::MIN, 2, -4_611_686_018_427_387_904),
        (i64::MAX, 2, 4_611_686_018_427_387_904),
        (i64::MIN, i64::MAX, -1),
        (i64::MAX, i64::MAX, 1),
        (4_611_686_018_427_387_904, i64::MAX, 1),
        (4_611_686_018_427_387_903, i64::MAX, 0),
        (-4_611_686_018_427_387_904, i64::MAX, -1),
        (-4_611_686_018_427_387_903, i64::MAX, 0),
    ] {
        let by = Divisor::new(by).ok_or("no divisor")?;
        assert_eq!(rt; nearest(a, by), value);
    }
    Ok(())
}

#[test]
fn divisors(rt: HostRuntime) {
    // value, whether a number may be divided by it
    for (value, some) in [
        (i64::MIN, false),
        (-1, false),
        (0, false),
        (1, true),
        (i64::MAX, true),
    ] {
        assert_eq!(rt; Divisor::new(value).is_some(), some);
    }
}
