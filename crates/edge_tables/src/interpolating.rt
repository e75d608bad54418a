// Places on a line and off it, the ends of 32 bits.
use arith::interpolation::interpolate;

#[test]
fn places(rt: HostRuntime) {
    // start, end, step, span, value
    for (start, end, step, span, value) in [
        (10, 20, 0, 7, 10),
        (10, 20, 7, 7, 20),
        (0, 1, 1, 2, 1),
        (0, -1, 1, 2, 0),
        (1, 0, 1, 2, 1),
        (-1, 0, 1, 2, 0),
        (0, 10, 1, 3, 3),
        (0, -10, 1, 3, -3),
        (10, 0, 1, 3, 7),
        (-5, -5, 3, 9, -5),
        (i32::MIN, i32::MAX, 1, 2, 0),
        (i32::MAX, i32::MIN, 1, 2, 0),
        (i32::MIN, i32::MAX, 0, i32::MAX, i32::MIN),
        (i32::MIN, i32::MAX, i32::MAX, i32::MAX, i32::MAX),
        (i32::MAX, i32::MIN, i32::MAX, i32::MAX, i32::MIN),
        (i32::MAX, i32::MIN, 2_147_483_646, i32::MAX, -2_147_483_646),
        (i32::MIN, i32::MAX, 1, i32::MAX, -2_147_483_646),
    ] {
        assert_eq!(rt; interpolate(start, end, step, span), Some(value));
    }
}

#[test]
fn no_places(rt: HostRuntime) {
    // step, span
    for (step, span) in [
        (-1, 7),
        (8, 7),
        (0, 0),
        (1, 0),
        (0, -1),
        (-1, -1),
        (i32::MIN, i32::MAX),
        (i32::MAX, 2_147_483_646),
        (i32::MIN, i32::MIN),
    ] {
        assert_eq!(rt; interpolate(10, 20, step, span), None);
    }
}
